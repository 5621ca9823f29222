// Runs session files the way daybook does, and compares what they answer with the answers of an independent second program.
// Standard input holds the cases one after the other: a line with the name, a line with the length of the session file, a line
// with the length of the answer, then the bytes of both.
#![tactic(auto)]

ghost use Rattle.std.specs.Prelude.{◌≡◌, ◌+◌, ◌<◌, length, IfOk};

use anyhow::anyhow;
use day::report::Refused;
use day::session::answer;
use std::alloc::{AllocError, Global};
use std::io::Read;
use std::str;
use terms::fault::Fault;

// So many cases are read at most; what stands behind them is left unread.
const MOST_CASES: usize = 1_000_000;

// What is left of the cases.
#[derive(Drop)]
struct Cases<'a> {
    rest: &'a [u8],
}

impl<'a> Cases<'a> {
    // So many bytes.
    fn part(&mut self, count: usize) -> anyhow::Result<&'a [u8]>
        ensures { IfOk result (λ part. length self.new.rest.now + count ≡ length self.old.rest.now) }
    {
        let (part, rest) = self
            .rest
            .split_at_checked(count)
            .ok_or_else(|| anyhow!("a case is cut off"))?;
        self.rest = rest;
        Ok(part)
    }

    // A line, without its end.
    fn line(&mut self) -> anyhow::Result<&'a [u8]>
        ensures { IfOk result (λ line. length self.new.rest.now < length self.old.rest.now) }
    {
        let end = self.rest.iter().position(|byte| *byte == b'\n');
        let line = self.part(end.unwrap_or(self.rest.len()))?;
        self.part(1)?;
        Ok(line)
    }

    // A length in digits.
    fn length(&mut self) -> anyhow::Result<usize>
        ensures { IfOk result (λ n. length self.new.rest.now < length self.old.rest.now) }
    {
        let line = self.line()?;
        let digits = str::from_utf8(line).map_err(|_| anyhow!("a length is no text"))?;
        Ok(digits.parse()?)
    }
}

fn main(rt: HostRuntime) -> anyhow::Result<()> {
    run(&rt)
}

fn run(rt: &HostRuntime) -> anyhow::Result<()> {
    let mut text = Vec::new(rt.alloc());
    rt.stdin().read_to_end(&mut text)?;
    let mut cases = Cases { rest: &text };
    let mut count: usize = 0;
    let mut different: usize = 0;
    // Each case is cut off the front, and its length is not known before it is read.
    while !cases.rest.is_empty() && count < MOST_CASES {
        if !agrees(rt, &mut cases)? {
            different = different.saturating_add(1);
        }
        count = count.saturating_add(1);
    }
    println!(rt; "{count} session files, {different} answered differently")?;
    Ok(())
}

// Whether the next case is answered as the second program answers it; prints its name where it is not.
fn agrees(rt: &HostRuntime, cases: &mut Cases) -> anyhow::Result<bool>
    ensures { IfOk result (λ same. length cases.new.rest.now < length cases.old.rest.now) }
{
    let name = cases.line()?;
    let session = cases.length()?;
    let wanted = cases.length()?;
    let file = cases.part(session)?;
    let expected = cases.part(wanted)?;
    let said = answered(rt.alloc(), file)?;
    let same = said.as_bytes() == expected;
    if !same {
        if let Ok(label) = str::from_utf8(name) {
            println!(rt; "{label} is answered differently")?;
        }
    }
    Ok(same)
}

fn answered(heap: Global, file: &[u8]) -> anyhow::Result<String> {
    // The same cases as in daybook; one function for both would have to take the writer.
    match answer(heap, file) {
        Ok(session) => Ok(session.to_string(heap)?),
        Err(Fault::Refused(why)) => Ok(Refused { why }.to_string(heap)?),
        Err(Fault::Memory) => Err(AllocError.into()),
    }
}
