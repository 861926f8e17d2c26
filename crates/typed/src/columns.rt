// Lines and columns.
ghost use Rattle.std.specs.Prelude.{◌≡◌, ◌<◌, length};
ghost use Rattle.typed.specs.Places.{place_at};

use super::Place;

// The line and the column of the character at an index.
pub fn place_at(text: &[u8], at: usize) -> Place
    requires { at < length text.now }
    ensures { result ≡ place_at text.now at }
{
    let mut place = Place { line: 1, column: 1 };
    for c in &text[..at] {
        if *c == b'\n' {
            place.line += 1;
            place.column = 1;
        } else {
            place.column += 1;
        }
    }
    place
}
