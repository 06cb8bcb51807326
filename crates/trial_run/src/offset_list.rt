// The offsets as a word: at most 64 numbers joined by commas, or - for none.
ghost use Rattle.std.specs.Prelude.{◌≡◌, ◌≤◌, length};
ghost use Rattle.trial_run.specs.OffsetList.{parts_of, split_at, is_dash, numbers_in, offsets_in, Holds};

// Where the first comma stands, the word's length where there is none.
fn first_comma(word: &[u8]) -> usize
    ensures { (result ≤ length word.now) × (parts_of word.now ≡ split_at result word.now) }
{
    word.iter()
        .position(|byte| *byte == b',')
        .unwrap_or(word.len())
}

// The numbers between the commas, into the list, and how many there are; none where the word is no such list.
fn read_numbers(word: &[u8], list: &mut [u32]) -> Option<usize>
    requires { 64 ≤ length list.old }
    ensures { Holds (numbers_in word.now) result list.new }
{
    let mut at: usize = 0;
    for n in 0..64 {
        let end = at + first_comma(&word[at..]);
        list[n] = text::number_of(&word[at..end])?;
        if end == word.len() {
            return Some(n + 1);
        }
        at = end + 1;
    }
    None
}

// The offsets that a word is, likewise.
pub fn read_offsets(word: &[u8], list: &mut [u32]) -> Option<usize>
    requires { 64 ≤ length list.old }
    ensures { Holds (offsets_in word.now) result list.new }
{
    if word == b"-".as_slice() {
        return Some(0);
    }
    read_numbers(word, list)
}
