// The steps of the reader, from a byte to an inner form: each answers what stands at the reader's place, and moves behind it.
ghost use Rattle.std.specs.Prelude.{◌≡◌, ◌+◌, drop};
ghost use Rattle.forms.specs.Fields.{asked};
ghost use Rattle.forms.specs.Moves.{Moves};
ghost use Rattle.forms.specs.Reads.{stands, byte_in, is_head, spaces, number_in, field_in, spaced_in, open_in, fits_head, head_in, numbers_in, inner_in, inners_in, begins, outer_in, close_in};

use crate::field::{Allowed, Field};
use crate::kind::Kind;
use crate::reader::Reader;
use crate::takes::takes;
use terms::refusal::Refusal;
use text::number::number;

impl Reader<'_> {
    // Whether a character stands here.
    fn stands_here(&self, c: char) -> bool
        ensures { result ≡ stands c self.now.text.now self.now.at }
    {
        self.text
            .get(self.at)
            .is_some_and(|byte| *byte as char == c)
    }

    // Steps over a character.
    pub(crate) fn expect(&mut self, c: char) -> Result<(), Refusal>
        ensures { Moves (byte_in c) self.old self.new result }
    {
        if self.stands_here(c) {
            self.at += 1;
            Ok(())
        } else {
            Err(Refusal::Malformed(self.at))
        }
    }

    fn plain_number(&mut self) -> Result<i64, Refusal>
        ensures { Moves number_in self.old self.new result }
    {
        let place = self.at;
        let (value, taken) = number(&self.text[place..]).map_err(|_| Refusal::Malformed(place))?;
        self.at += taken;
        Ok(value)
    }

    // A number that is allowed.
    fn number(&mut self, allowed: Allowed) -> Result<i64, Refusal>
        ensures { Moves (field_in allowed) self.old self.new result }
    {
        let place = self.at;
        let value = self.plain_number()?;
        if takes(allowed, value) {
            Ok(value)
        } else {
            Err(Refusal::OutsideField(place))
        }
    }

    // A number behind a space.
    pub(crate) fn spaced_number(&mut self, allowed: Allowed) -> Result<i64, Refusal>
        ensures { Moves (spaced_in allowed) self.old self.new result }
    {
        self.expect(' ')?;
        self.number(allowed)
    }

    // The space and the bracket before an inner form, which may not be missing; answers the bracket's place.
    pub(crate) fn open_inner(&mut self) -> Result<usize, Refusal>
        ensures { Moves open_in self.old self.new result }
    {
        if self.stands_here(')') {
            return Err(Refusal::WrongForm(self.at));
        }
        self.expect(' ')?;
        let bracket = self.at;
        self.expect('(')?;
        Ok(bracket)
    }

    // The head that is asked for, with as many numbers.
    pub(crate) fn asked_head(&mut self, field: &Field, bracket: usize) -> Result<(), Refusal>
        ensures { Moves (head_in (asked field.now) bracket) self.old self.new result }
    {
        if self.fits_head(field) {
            self.at += field.head.len();
            Ok(())
        } else {
            Err(Refusal::WrongForm(bracket))
        }
    }

    // Whether that head stands here, with so many numbers behind it.
    fn fits_head(&self, field: &Field) -> bool
        ensures { result ≡ fits_head (asked field.now) (drop self.now.at self.now.text.now) }
    {
        let here = &self.text[self.at..];
        same_head(field.head, here) && count_spaces(here) == field.count
    }

    // The numbers of an inner form, filled into the record.
    fn numbers<K: Kind>(
        &mut self,
        inner: usize,
        field: &Field,
        so_far: K::Record,
    ) -> Result<K::Record, Refusal>
        ensures { Moves (λ text at. numbers_in (K.Kind.filled inner) field.now.allowed text field.now.count 0 so_far at) self.old self.new result }
    {
        let mut filled = so_far;
        // as many as are asked for: there is no list of them to go over
        for index in 0..field.count {
            let value = self.spaced_number(field.allowed)?;
            filled = K::fill(filled, inner, index, value);
        }
        Ok(filled)
    }

    // An inner form, filled into the record.
    fn inner_form<K: Kind>(
        &mut self,
        inner: usize,
        field: &Field,
        so_far: K::Record,
    ) -> Result<K::Record, Refusal>
        ensures { Moves (λ text at. inner_in (K.Kind.filled inner) (asked field.now) text so_far at) self.old self.new result }
    {
        let bracket = self.open_inner()?;
        self.asked_head(field, bracket)?;
        let filled = self.numbers::<K>(inner, field, so_far)?;
        self.expect(')')?;
        Ok(filled)
    }

    // The inner forms that a kind asks for, filled into its record.
    pub(crate) fn all_inner<K: Kind>(&mut self) -> Result<K::Record, Refusal>
        ensures { Moves (λ text at. inners_in K.Kind.filled text K.Kind.fields_of 0 K.Kind.empty at) self.old self.new result }
    {
        let mut filled = K::blank();
        for (inner, field) in K::inner_forms().iter().enumerate() {
            filled = self.inner_form::<K>(inner, field, filled)?;
        }
        Ok(filled)
    }

    // Whether a line begins here, with that head.
    pub(crate) fn begins_with(&self, head: &[u8]) -> bool
        ensures { result ≡ begins head.now self.now.text.now self.now.at }
    {
        self.stands_here('(') && same_head(head, &self.text[self.at + 1..])
    }

    // The bracket and the head of an outer form.
    pub(crate) fn outer_head(&mut self, head: &[u8]) -> Result<(), Refusal>
        ensures { Moves (outer_in head.now) self.old self.new result }
    {
        if self.begins_with(head) {
            self.at += 1 + head.len();
            Ok(())
        } else {
            Err(Refusal::WrongForm(self.at))
        }
    }

    // The end of an outer form and of its line.
    pub(crate) fn close_line(&mut self) -> Result<(), Refusal>
        ensures { Moves close_in self.old self.new result }
    {
        if self.stands_here(' ') {
            return Err(Refusal::WrongForm(self.at + 1));
        }
        self.expect(')')?;
        self.expect('\n')
    }
}

// Whether the letters at the front of a text are the whole of a head.
fn same_head(head: &[u8], text: &[u8]) -> bool
    ensures { result ≡ is_head head.now text.now }
{
    text.starts_with(head)
        && !text
            .get(head.len())
            .is_some_and(|byte| byte.is_ascii_lowercase())
}

// How many numbers stand in an inner form, by the spaces before its closing bracket.
fn count_spaces(text: &[u8]) -> usize
    ensures { result ≡ spaces 0 text.now }
{
    text.iter()
        .take_while(|byte| **byte != b')')
        .filter(|byte| **byte == b' ')
        .count()
}
