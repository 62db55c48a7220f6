//! The form of a route file, and its numbers, for who knows that it is right.
ghost use Rattle.std.specs.Prelude.{◌≡◌, ◌+◌, ◌*◌, ◌≤◌, ◌<◌, length};
ghost use Rattle.std.proofs.lemmas.List.Edits.{sets};
ghost use Rattle.route_file.specs.Numbers.{number_at, signed_at, signed_from};
ghost use Rattle.route_file.specs.Form.{route_count, entry_at, is_entry_formed, are_formed, is_formed};

/// A file has at most 16 routes.
const ROUTES: usize = 16;

/// What the file says of a route, as it stands there.
#[derive(Clone, Copy, Debug, PartialEq, Eq)]
pub struct Entry {
    pub offset: u16,
    pub points: u16,
    pub width: u16,
    pub closed: u16,
}

/// The two-byte number at a place of a file, low byte first.
#[tactic(auto, unfolding(crate::specs::Numbers::number_at))]
pub fn number_at(file: &[u8], at: usize) -> u16
    requires { at + 1 < length file.now }
    ensures { result ≡ number_at file.now at }
{
    u16::from_le_bytes([file[at], file[at + 1]])
}

/// The same as a signed number: from 32,768 on it is below 0.
#[tactic(auto, using(crate::proofs::Reading::signed_bits))]
pub fn signed_at(file: &[u8], at: usize) -> i64
    requires { at + 1 < length file.now }
    ensures { result ≡ signed_at file.now at }
{
    i64::from(number_at(file, at).cast_signed())
}

/// How many routes a file says that it has.
#[tactic(auto, unfolding(crate::specs::Form::route_count))]
pub fn count_of(file: &[u8]) -> usize
    requires { 4 ≤ length file.now }
    ensures { result ≡ route_count file.now }
{
    usize::from(number_at(file, 0))
}

/// The entry of route `k`, from 0 on.
#[tactic(auto, unfolding(crate::specs::Form::entry_at))]
pub fn entry_at(file: &[u8], k: usize) -> Entry
    requires { 12 + 8 * k ≤ length file.now }
    ensures { result ≡ entry_at file.now k }
{
    let at = 4 + 8 * k;
    Entry {
        offset: number_at(file, at),
        points: number_at(file, at + 2),
        width: number_at(file, at + 4),
        closed: number_at(file, at + 6),
    }
}

/// Whether an entry's closed is 0 or 1, and its points lie between the end of the entries and the file's end.
#[tactic(auto, unfolding(crate::specs::Form::is_entry_formed))]
fn is_entry_formed(entry: Entry, end: usize, length: usize) -> bool
    ensures { result ≡ is_entry_formed end length entry }
{
    let offset = usize::from(entry.offset);
    entry.closed <= 1 && end <= offset && offset + 4 * usize::from(entry.points) <= length
}

/// Whether the first `n` entries are formed, behind which the points begin.
fn are_entries_formed(file: &[u8], n: usize) -> bool
    requires { 4 + 8 * n ≤ length file.now }
    ensures { result ≡ are_formed (4 + 8 * n) file.now 0 n }
{
    (0..n).all(|k| is_entry_formed(entry_at(file, k), 4 + 8 * n, file.len()))
}

/// Whether the file's form is right.
#[tactic(auto, unfolding(crate::specs::Form::said_length, crate::specs::Form::is_formed))]
pub fn is_formed(file: &[u8]) -> bool
    ensures { result ≡ is_formed file.now }
{
    let length = file.len();
    if length < 4 {
        return false;
    }
    let n = count_of(file);
    let said = usize::from(number_at(file, 2));
    n <= ROUTES && said == length && 4 + 8 * n <= length && are_entries_formed(file, n)
}

/// Writes `n` signed numbers, which stand in the file from a place on, to the front of a list.
pub fn write_numbers(file: &[u8], from: usize, n: usize, out: &mut [i64])
    requires n_in_bounds { from + 2 * n ≤ length file.now }
    requires n_in_bounds_2 { n ≤ length out.old }
    ensures { out.new ≡ sets out.old 0 (signed_from file.now from n) }
{
    for i in 0..n {
        out[i] = signed_at(file, from + 2 * i);
    }
}
