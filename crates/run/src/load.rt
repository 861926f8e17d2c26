// The start words of a file, written into a buffer of as many numbers.
ghost use Rattle.std.specs.Prelude.{◌≤◌, length};
ghost use Rattle.runfile.specs.Layout.{word_place};
ghost use Rattle.run.specs.Promises.{Loaded};

use runfile::Header;

pub fn load_words(file: &[u8], header: Header, words: &mut [u64])
    requires { word_place header.version (length words.old) ≤ length file.now }
    ensures { Loaded file.now header words.old words.new }
{
    for (i, word) in words.iter_mut().enumerate() {
        *word = runfile::word_at(file, header, i);
    }
}
