// Runs the session file on standard input, and prints what its account answers: a line for each order, then the margin, what each
// family loses, and the collateral that is free. A file or an account that is refused prints its refusal alone.
#![tactic(auto)]

use day::report::Refused;
use day::session::answer;
use std::alloc::AllocError;
use std::io::Read;
use terms::fault::Fault;

fn main(rt: HostRuntime) -> anyhow::Result<()> {
    run(&rt)
}

fn run(rt: &HostRuntime) -> anyhow::Result<()> {
    let mut text = Vec::new(rt.alloc());
    rt.stdin().read_to_end(&mut text)?;
    // The same cases as in compare; one function for both would have to take the writer.
    match answer(rt.alloc(), &text) {
        Ok(session) => rt.print(session)?,
        Err(Fault::Refused(why)) => rt.print(Refused { why })?,
        Err(Fault::Memory) => return Err(AllocError.into()),
    }
    Ok(())
}
