// What stands in a lent buffer before a run, and the sum over it afterwards.
ghost use Rattle.std.specs.Prelude.{◌≡◌, [], ◌∷◌};
ghost use Rattle.sweep.specs.Sum.{halves, Summed, SummedWords};
ghost use Rattle.sweep.specs.Blocks.{Weighs};
ghost use Rattle.sweep.specs.Filled.{next_of_32, next_of_64, Filled};

// The sum's factor and modulus, the largest prime below 2^32; and the powers of the factor, each by the modulus.
const MODULUS: u64 = 4294967291;

const F1: u64 = 1000003;

const F2: u64 = F1 * F1 % MODULUS;

const F3: u64 = F2 * F1 % MODULUS;

const F4: u64 = F3 * F1 % MODULUS;

const F5: u64 = F4 * F1 % MODULUS;

const F6: u64 = F5 * F1 % MODULUS;

const F7: u64 = F6 * F1 % MODULUS;

const F8: u64 = F7 * F1 % MODULUS;

// How many numbers 32 bits hold.
const HALF: u64 = 1 << 32;

// A number of a lent buffer.
pub trait Number: Copy {
    // The number that is greater by one; after the greatest comes 0.
    ghost next: { Self → Self };

    fn wrapping_next(self) -> Self
        ensures { result ≡ next self };
}

impl Number for u32 {
    ghost next = { next_of_32 };

    fn wrapping_next(self) -> u32 {
        self.wrapping_add(1)
    }
}

impl Number for u64 {
    ghost next = { next_of_64 };

    fn wrapping_next(self) -> u64 {
        self.wrapping_add(1)
    }
}

// Fills a buffer with numbers that rise by one, from the given one on.
pub fn fill<T: Number>(buffer: &mut [T], first: T)
    ensures { Filled T.next first buffer.old buffer.new }
{
    let mut number = first;
    for place in buffer.iter_mut() {
        *place = number;
        number = number.wrapping_next();
    }
}

// What eight numbers add to a sum that is multiplied by the factor eight times. Three groups of products, each as many
// as 64 bits hold, so that eight numbers take three remainders.
fn weight_of(block: &[u32; 8]) -> u64
    ensures { Weighs block.now result }
{
    let [a, b, c, d, e, f, g, h] = *block;
    let front = u64::from(a) * F7 + u64::from(b) * F6 + u64::from(c) * F5;
    let middle = u64::from(d) * F4 + u64::from(e) * F3 + u64::from(g) * F1;
    let back = u64::from(f) * F2 + u64::from(h);
    front % MODULUS + middle % MODULUS + back % MODULUS
}

// Goes on with a sum over a buffer: for each number x it becomes (sum * 1,000,003 + x) mod 4,294,967,291. The first
// remainder changes no sum made here; it keeps the products small whatever is handed in.
//
// Number by number each product would wait for the remainder before it, which is most of the program's time. So eight
// numbers are taken at once: of a block only one product waits for the block before.
pub fn sum_over(before: u64, buffer: &[u32]) -> u64
    ensures { Summed before buffer.now result }
{
    let mut sum = before % MODULUS;
    let (blocks, rest) = buffer.as_chunks::<8>();
    for block in blocks {
        sum = (sum * F8 + weight_of(block)) % MODULUS;
    }
    for &number in rest {
        sum = (sum * F1 + u64::from(number)) % MODULUS;
    }
    sum
}

// Goes on with a sum over a buffer of words. A word is two numbers in the sum: its low 32 bits, and then its high 32 bits.
pub fn sum_over_words(before: u64, words: &[u64]) -> u64
    ensures { SummedWords before words.now result }
{
    let mut sum = before % MODULUS;
    for &word in words {
        sum = sum_over(sum, &halves_of(word));
    }
    sum
}

// By `as`: half of the number is meant.
fn halves_of(word: u64) -> [u32; 2]
    ensures { result ≡ halves (word ∷ []) }
{
    [(word % HALF) as u32, (word / HALF) as u32]
}
