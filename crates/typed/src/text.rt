// Bytes put as text: two digits a byte, a space between, sixteen bytes to a line, and a comment behind the last.
ghost use Rattle.std.specs.Prelude.{◌≡◌, ◌+◌, ◌*◌, ◌≤◌, leb, length};
ghost use Rattle.std.proofs.lemmas.List.Edits.{sets};
ghost use Rattle.typed.specs.Writing.{after_byte, comment_of, comment_size, gap, last_of, on_one_line, paired, remark, text_size};
ghost use Rattle.typed.specs.Promises.{Puts};

use super::chars::digit_of;

// What stands behind the byte that is the `k`th of `n`: behind the last `last`, else the end of a line behind every
// sixteenth and a space behind all others.
#[tactic(auto, unfolding(crate::specs::Writing::after_byte))]
fn after_byte(n: usize, k: usize, last: u8) -> u8
    ensures { result ≡ after_byte n last k }
{
    if k == n {
        last
    } else if k % 16 == 0 {
        b'\n'
    } else {
        b' '
    }
}

// Puts the bytes, three characters each. By index: after `chunks_exact_mut` a proof knows how long `out` is, and nothing of
// what is in it.
fn put_pairs(out: &mut [u8], bytes: &[u8], last: u8)
    requires { 3 * length bytes.now ≤ length out.old }
    ensures { out.new ≡ sets out.old 0 (paired (length bytes.now) last 0 bytes.now) }
{
    for (i, byte) in bytes.iter().enumerate() {
        let at = 3 * i;
        out[at] = digit_of(byte / 16);
        out[at + 1] = digit_of(byte % 16);
        out[at + 2] = after_byte(bytes.len(), i + 1, last);
    }
}

// How many spaces more stand in front of a comment behind `n` bytes: at least one, and so many that the `#` stands in
// column 17 where the last line has at most five bytes. A comment with no bytes begins its line.
#[tactic(auto, unfolding(crate::specs::Writing::gap))]
fn gap_of(n: usize) -> usize
    ensures { (result ≡ gap n) × (result ≤ 13) }
{
    if n == 0 {
        return 0;
    }
    let k = (n - 1) % 16 + 1;
    if k < 5 { 16 - 3 * k } else { 1 }
}

// A comment ends where its line does, so that a newline in it becomes a space.
#[tactic(auto, unfolding(crate::specs::Writing::on_one_line))]
fn one_line(c: u8) -> u8
    ensures { result ≡ on_one_line c }
{
    if c == b'\n' { b' ' } else { c }
}

// Puts `# `, the comment and the end of its line. By index, as the pairs.
fn put_remark(out: &mut [u8], comment: &[u8])
    requires { 3 + length comment.now ≤ length out.old }
    ensures { out.new ≡ sets out.old 0 (remark comment.now) }
{
    out[0] = b'#';
    out[1] = b' ';
    for (i, c) in comment.iter().enumerate() {
        out[2 + i] = one_line(*c);
    }
    out[2 + comment.len()] = b'\n';
}

// Puts the comment that stands behind `n` bytes, if there is one, and answers how long it is.
fn put_comment(out: &mut [u8], n: usize, comment: &[u8]) -> usize
    requires { comment_size n (length comment.now) ≤ length out.old }
    ensures { (result ≡ comment_size n (length comment.now)) × (out.new ≡ sets out.old 0 (comment_of n comment.now)) }
{
    if comment.is_empty() {
        return 0;
    }
    let gap = gap_of(n);
    out[..gap].fill(b' ');
    put_remark(&mut out[gap..], comment);
    gap + 3 + comment.len()
}

// Whether the text of `n` bytes and a comment of `m` characters has room. The sizes are taken off one by one: their sum
// may be more than a number holds.
fn has_room(room: usize, n: usize, m: usize) -> bool
    ensures { result ≡ leb (text_size n m) room }
{
    if n > room / 3 {
        return false;
    }
    if m == 0 {
        return true;
    }
    let left = room - 3 * n;
    m <= left && gap_of(n) + 3 <= left - m
}

// What stands behind the last byte: its line ends, if no comment follows.
fn last_of(m: usize) -> u8
    ensures { result ≡ last_of m }
{
    if m == 0 { b'\n' } else { b' ' }
}

// Puts bytes and a comment behind them into `out`, from index `at` on, in whole lines, and answers the index after them. An
// empty comment is none. Where there is no room `out` is left as it was. Texts that are put one behind the other are read
// as the bytes one behind the other, whatever the comments say (`puts_says`, proofs/Says).
pub fn put_bytes(out: &mut [u8], at: usize, bytes: &[u8], comment: &[u8]) -> Option<usize>
    ensures { Puts out.old at bytes.now comment.now result out.new }
{
    let n = bytes.len();
    let m = comment.len();
    let room = out.len().checked_sub(at)?;
    if !has_room(room, n, m) {
        return None;
    }
    put_pairs(&mut out[at..], bytes, last_of(m));
    let end = at + 3 * n;
    Some(end + put_comment(&mut out[end..], n, comment))
}
