// The words of the command line.
ghost use Rattle.std.specs.Prelude.{◌≡◌, ◌≢◌, ◌∷◌, [], ◌<◌, ◌^◌, List, ℕ, pos, IfSome, IsNone, codes};
ghost use Rattle.gx_requests.specs.Words.{Action, texts_of, request_words, IsCount, IsCounted, IsRecordCount, NoCounts, AreNoCounts, IsRequest, has_sign};

use gx_tokens::signed_number;
use gx_work::MOST_RECORDS;

/// What is asked for, with the names of a schema and of an equation.
#[derive(Clone, Copy, Debug)]
pub enum Request<'a> {
    /// To tell whether the two are accepted.
    Check {
        schema: &'a str,
        equation: &'a str,
    },
    /// To play the script over leaves in memory.
    Try {
        schema: &'a str,
        equation: &'a str,
    },
    /// To say how each `find` of the script looks for its records.
    Explain {
        schema: &'a str,
        equation: &'a str,
    },
    /// To make a device of that name with so many blocks, and an empty database on it.
    Make {
        schema: &'a str,
        equation: &'a str,
        device: &'a str,
        blocks: u32,
    },
    /// To recover the device of that name, and to play the script on it.
    Run {
        schema: &'a str,
        equation: &'a str,
        device: &'a str,
    },
    /// To recover the device of that name, and to play the script of turns on it.
    Share {
        schema: &'a str,
        equation: &'a str,
        device: &'a str,
    },
    /// To recover the device of that name, and to examine what it holds.
    Inspect {
        schema: &'a str,
        equation: &'a str,
        device: &'a str,
    },
    /// To make a device of that name with so many blocks, and to play the workload of so many
    /// records on it.
    Work {
        equation: &'a str,
        device: &'a str,
        blocks: u32,
        records: u32,
    },
}

// The most digits of a number of blocks or of records.
const MOST_DIGITS: usize = 10;

/// The request that the words mean: `check SCHEMA EQUATION`, `try SCHEMA EQUATION`,
/// `explain SCHEMA EQUATION`, `make SCHEMA EQUATION DEVICE BLOCKS`, `run SCHEMA EQUATION DEVICE`,
/// `share SCHEMA EQUATION DEVICE`, `inspect SCHEMA EQUATION DEVICE` or `work EQUATION DEVICE BLOCKS
/// RECORDS`; nothing where they are others.
pub fn read_words(words: &[String]) -> Option<Request<'_>>
    ensures some { IfSome result (IsRequest (texts_of words.now)) }
    ensures none { IsNone result → (a : Action) (schema equation : List ℕ) → IsCounted a →
        texts_of words.now ≢ request_words a schema equation }
{
    match words {
        [word, schema, equation] => request_for(word.as_str(), schema.as_str(), equation.as_str()),
        [word, schema, equation, device] => request_on_device(
            word.as_str(),
            schema.as_str(),
            equation.as_str(),
            device.as_str(),
        ),
        [word, first, second, third, fourth] => request_of_counts(
            word.as_str(),
            first.as_str(),
            second.as_str(),
            third.as_str(),
            fourth.as_str(),
        ),
        _ => None,
    }
}

// What this word asks for of two texts.
fn request_for<'a>(word: &str, schema: &'a str, equation: &'a str) -> Option<Request<'a>>
    ensures some { IfSome result
        (IsRequest (word.now ∷ schema.now ∷ equation.now ∷ [])) }
    ensures none { IsNone result → (word.now ≢ codes "check") × (word.now ≢ codes "try") ×
        (word.now ≢ codes "explain") }
{
    match word {
        "check" => Some(Request::Check { schema, equation }),
        "try" => Some(Request::Try { schema, equation }),
        "explain" => Some(Request::Explain { schema, equation }),
        _ => None,
    }
}

// What this word asks for of two texts and a device.
fn request_on_device<'a>(
    word: &str,
    schema: &'a str,
    equation: &'a str,
    device: &'a str,
) -> Option<Request<'a>>
    ensures some { IfSome result
        (IsRequest (word.now ∷ schema.now ∷ equation.now ∷ device.now ∷ [])) }
    ensures none { IsNone result → (word.now ≢ codes "run") × (word.now ≢ codes "share") ×
        (word.now ≢ codes "inspect") }
{
    match word {
        "run" => Some(Request::Run {
            schema,
            equation,
            device,
        }),
        "share" => Some(Request::Share {
            schema,
            equation,
            device,
        }),
        "inspect" => Some(Request::Inspect {
            schema,
            equation,
            device,
        }),
        _ => None,
    }
}

// What this word asks for, with a number of blocks and perhaps one of records.
fn request_of_counts<'a>(
    word: &str,
    first: &'a str,
    second: &'a str,
    third: &'a str,
    fourth: &str,
) -> Option<Request<'a>>
    ensures some { IfSome result
        (IsRequest (word.now ∷ first.now ∷ second.now ∷ third.now ∷ fourth.now ∷ [])) }
    ensures none { IsNone result → NoCounts word.now third.now fourth.now }
{
    match word {
        "make" => request_to_make(first, second, third, fourth),
        "work" => request_to_work(first, second, third, fourth),
        _ => None,
    }
}

// To make a device, where the last word counts its blocks.
fn request_to_make<'a>(
    schema: &'a str,
    equation: &'a str,
    device: &'a str,
    blocks: &str,
) -> Option<Request<'a>>
    ensures some { IfSome result
        (IsRequest (codes "make" ∷ schema.now ∷ equation.now ∷ device.now ∷ blocks.now ∷ [])) }
    ensures none { IsNone result → (n : ℕ) → ¬ IsCount blocks.now n }
{
    Some(Request::Make {
        schema,
        equation,
        device,
        blocks: block_count(blocks)?,
    })
}

// To play the workload, where the last two words count the blocks and the records.
fn request_to_work<'a>(
    equation: &'a str,
    device: &'a str,
    blocks: &str,
    records: &str,
) -> Option<Request<'a>>
    ensures some { IfSome result
        (IsRequest (codes "work" ∷ equation.now ∷ device.now ∷ blocks.now ∷ records.now ∷ [])) }
    ensures none { IsNone result → AreNoCounts blocks.now records.now }
{
    match (block_count(blocks), record_count(records)) {
        (Some(blocks), Some(records)) => Some(Request::Work {
            equation,
            device,
            blocks,
            records,
        }),
        _ => None,
    }
}

// The number of records that the word is.
fn record_count(word: &str) -> Option<u32>
    ensures some { IfSome result (IsRecordCount word.now) }
    ensures none { IsNone result → (n : ℕ) → ¬ IsRecordCount word.now n }
{
    match block_count(word) {
        Some(records) if records <= MOST_RECORDS => Some(records),
        _ => None,
    }
}

// The number that one to ten digits are, where it has 32 bits.
fn block_count(word: &str) -> Option<u32>
    ensures some { IfSome result (IsCount word.now) }
    ensures none { IsNone result → (n : ℕ) → ¬ IsCount word.now n }
{
    let digits = word.as_bytes();
    if digits.len() > MOST_DIGITS || has_sign(digits) {
        return None;
    }
    match signed_number(digits) {
        Some(number) => as_count(number),
        None => None,
    }
}

fn has_sign(word: &[u8]) -> bool
    ensures { result ≡ has_sign word.now }
{
    matches!(word, [b'-', ..])
}

// The number where it has 32 bits and no sign.
fn as_count(number: i64) -> Option<u32>
    ensures some { IfSome result (λ n. (number ≡ pos n) × (n < 2 ^ 32)) }
    ensures none { IsNone result → (n : ℕ) → n < 2 ^ 32 → number ≢ pos n }
{
    u32::try_from(number).ok()
}
