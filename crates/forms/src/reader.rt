// A reader over a text that is known to be well formed.
ghost use Rattle.std.specs.Prelude.{◌≡◌, ◌≤◌, [], length, nat_le};
ghost use Rattle.forms.specs.Judged.{ReadsForms, ReadsLists};
ghost use Rattle.forms.specs.Reads.{told, form_in, list_on, Listed};

use crate::kind::Kind;
use terms::refusal::Refusal;

// The text, and the place that is read next. The clauses of its public functions keep their names, where those within the crate
// say the same in one word.
#[derive(Drop)]
pub struct Reader<'a> {
    pub(crate) text: &'a [u8],
    pub(crate) at: usize,
    ghost inside: { at ≤ length text.now },
}

// A reader at the start of a text.
pub fn read_from(text: &[u8]) -> Reader<'_>
    ensures { (result.text.now ≡ text.now) × (result.at ≡ 0) }
{
    Reader { text, at: 0 }
}

impl Reader<'_> {
    // The place that is read next.
    pub fn place(&self) -> usize
        ensures { result ≡ self.now.at }
    {
        self.at // bytes are counted from 0
    }

    // Whether nothing is left of the text.
    pub fn is_at_end(&self) -> bool
        ensures { result ≡ nat_le (length self.now.text.now) self.now.at }
    {
        self.text.len() <= self.at
    }

    // A form of the kind, with its line's end: the record that it fills.
    pub fn form<K: Kind>(&mut self) -> Result<K::Record, Refusal>
        ensures answer { told result self.new.at ≡ form_in K.Kind.head_of K.Kind.fields_of K.Kind.empty K.Kind.filled self.old.text.now self.old.at }
        ensures same { self.new.text.now ≡ self.old.text.now }
        ensures reads { ReadsForms K.Kind.head_of K.Kind.fields_of K.Kind.empty K.Kind.filled }
    {
        self.outer_head(K::first_head())?;
        let filled = self.all_inner::<K>()?;
        self.close_line()?;
        Ok(filled)
    }

    // The forms of a kind that follow one another here, written into the list from its start; answers how many they are.
    // One more than the list holds is refused at its bracket.
    pub fn list<K: Kind>(&mut self, out: &mut [K::Record]) -> Result<usize, Refusal>
        ensures answer { Listed (list_on K.Kind.head_of K.Kind.fields_of K.Kind.empty K.Kind.filled self.old.text.now (length out.old) [] self.old.at) result self.new.at out.old out.new }
        ensures same { self.new.text.now ≡ self.old.text.now }
        ensures reads { ReadsLists K.Kind.head_of K.Kind.fields_of K.Kind.empty K.Kind.filled }
    {
        let head = K::first_head();
        for (count, record) in out.iter_mut().enumerate() {
            if !self.begins_with(head) {
                return Ok(count);
            }
            *record = self.form::<K>()?;
        }
        if self.begins_with(head) {
            Err(Refusal::WrongForm(self.at))
        } else {
            Ok(out.len())
        }
    }
}
