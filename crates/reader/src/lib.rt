// A text and a place in it that only moves forward, as one struct: `new` sets the place to 0, and `moved` sets it to one that is not before it. The
// lines are read by covered functions on the text and the place.
#![tactic(auto)]

ghost use Rattle.std.specs.Prelude.{◌≡◌, ◌≤◌, length};

#[derive(Clone, Copy)]
pub struct Reader<'a> {
    pub text: &'a [u8],
    pub place: usize,
}

impl<'a> Reader<'a> {
    // A reader at the front of a text.
    pub fn new(text: &'a [u8]) -> Reader<'a>
        ensures { (result.text ≡ text.entry) × (result.place ≡ 0) }
    {
        Reader { text, place: 0 }
    }

    // The reader moved on to a place in its text: the place never falls.
    pub fn moved(self, place: usize) -> Reader<'a>
        requires { (self.place ≤ place) × (place ≤ length self.text.now) }
        ensures { (result.text ≡ self.entry.text) × (result.place ≡ place) × (self.entry.place ≤ result.place) }
    {
        Reader {
            text: self.text,
            place,
        }
    }
}
