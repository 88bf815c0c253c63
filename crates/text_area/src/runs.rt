//! Runs of bytes of one kind, read many at once.

ghost use Rattle.std.specs.Prelude.{◌≡◌, ◌+◌, ◌-◌, ◌<◌, ◌≤◌, ℕ, length, take, drop, slice_index};
ghost use Rattle.std.specs.Prelude.{true, false, IsTrue};
ghost use Rattle.std.specs.List.{prefix_len, suffix_len};
ghost use Rattle.text_area.specs.Extents.{is_gap};
ghost use Rattle.text_area.specs.Inner.{in_run};

// How many bytes are read at once.
pub(crate) const BLOCK: usize = 192;

// What a run of bytes is made of: what is between words, or printable characters of ASCII.
#[derive(Clone, Copy)]
pub(crate) enum Run {
    Gap,
    Printable,
}

// Whether a byte stands between words.
fn is_gap(byte: u8) -> bool
    ensures { result ≡ is_gap byte }
{
    byte == b'\n' || byte == b'\t' || byte == b' '
}

// Whether a byte is one of a run.
fn in_run(run: Run, byte: u8) -> bool
    ensures { result ≡ in_run run byte }
{
    match run {
        Run::Gap => is_gap(byte),
        Run::Printable => byte >= 0x20 && byte < 0x7F,
    }
}

// Whether each byte is one of a run. No byte ends the loop early, so that many are tested at once.
fn are_in_run(run: Run, bytes: &[u8]) -> bool
    ensures { IsTrue result
        → (k : ℕ) → k < length bytes.now → in_run run (slice_index bytes.now k) ≡ true }
{
    let mut all = true;
    for byte in bytes {
        all &= in_run(run, *byte);
    }
    all
}

// Where the blocks end that are of a run and begin at a place.
fn blocks_end(bytes: &[u8], start: usize, run: Run) -> usize
    requires { start ≤ length bytes.now }
    ensures order { start ≤ result }
    ensures within { result ≤ length bytes.now }
    ensures run { (k : ℕ) → start ≤ k → k < result → in_run run (slice_index bytes.now k) ≡ true }
{
    let mut end = start;
    'walk: while bytes.len() - end >= BLOCK && are_in_run(run, &bytes[end..end + BLOCK]) {
        end += BLOCK;
    }
    end
}

// Where the blocks begin that are of a run and end at a place.
fn blocks_start(bytes: &[u8], end: usize, run: Run) -> usize
    requires { end ≤ length bytes.now }
    ensures order { result ≤ end }
    ensures run { (k : ℕ) → result ≤ k → k < end → in_run run (slice_index bytes.now k) ≡ true }
{
    let mut start = end;
    'walk: while start >= BLOCK && are_in_run(run, &bytes[start - BLOCK..start]) {
        start -= BLOCK;
    }
    start
}

// Where the run ends that begins at a place.
#[tactic(auto, using(crate::proofs::RunLemmas::length_rules))]
pub(crate) fn run_end(bytes: &[u8], start: usize, run: Run) -> usize
    requires { start ≤ length bytes.now }
    ensures value { result ≡ start + prefix_len (in_run run) (drop start bytes.now) }
    ensures within { result ≤ length bytes.now }
    ensures run { (k : ℕ) → start ≤ k → k < result → in_run run (slice_index bytes.now k) ≡ true }
    ensures stops { result < length bytes.now → in_run run (slice_index bytes.now result) ≡ false }
{
    let mut end = blocks_end(bytes, start, run);
    'walk: while end < bytes.len() && in_run(run, bytes[end]) {
        end += 1;
    }
    end
}

// Where the run begins that ends at a place.
#[tactic(auto, using(crate::proofs::RunLemmas::length_rules))]
pub(crate) fn run_start(bytes: &[u8], end: usize, run: Run) -> usize
    requires { end ≤ length bytes.now }
    ensures value { result + suffix_len (in_run run) (take end bytes.now) ≡ end }
    ensures stops { 0 < result → in_run run (slice_index bytes.now (result - 1)) ≡ false }
{
    let mut start = blocks_start(bytes, end, run);
    'walk: while start > 0 && in_run(run, bytes[start - 1]) {
        start -= 1;
    }
    start
}
