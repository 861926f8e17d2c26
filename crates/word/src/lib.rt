// A word that survives a crash: a value in its low bits (R14), and above it a flip bit for each process (R15).
#![tactic(auto)]

ghost use Rattle.std.specs.Prelude.{◌<◌};
ghost use Rattle.word.specs.Promises.{Valued, HasFlips, Flipped, Swapped, Summed};

// How many bits of a word are its value, and how many values they hold (R14).
const WIDTH: u32 = 32;

const VALUES: u64 = 1 << WIDTH;

#[tactic(auto, unfolding(crate::specs::Word::value_in))]
// By `as`, here and below: a part of the word is meant.
pub fn value_of(word: u64) -> u32
    ensures { Valued word result }
{
    (word % VALUES) as u32
}

// The flip bits of all processes as one number (R192).
#[tactic(auto, unfolding(crate::specs::Word::flips_in))]
pub fn flips_of(word: u64) -> u32
    ensures { HasFlips word result }
{
    (word / VALUES) as u32
}

// The flip bit of a process (R15). That it is below 16 is a clause, here and below: a type of such numbers would ask more of callers.
pub fn bit_of(process: u32, word: u64) -> bool
    requires { process < 16 }
    ensures { Flipped process word result }
{
    (word >> (WIDTH + process)) % 2 == 1
}

// The word after a process has turned its own flip bit and put in `new` (R114).
pub fn swapped_of(process: u32, new: u32, word: u64) -> u64
    requires { process < 16 }
    ensures { Swapped process new word result }
{
    let own = 1u64 << (WIDTH + process);
    let turned = word ^ own;
    let value = u64::from(value_of(turned));
    turned - value + u64::from(new)
}

// A value moved on by an amount: past the largest value it goes round to 0, as the sequence numbers of TCP do (R117).
pub fn sum_of(value: u32, amount: u32) -> u32
    ensures { Summed value amount result }
{
    value.wrapping_add(amount)
}
