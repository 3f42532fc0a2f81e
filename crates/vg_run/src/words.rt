//! The words that the program is called with.

ghost use Rattle.std.specs.Prelude.{◌≡◌, ◌≤◌, ◌<◌, ◌+◌, ◌^◌, ◌↔◌, ℕ, [], ◌∷◌, map, string_bytes, decimal, IsTrue, MatchOption};
ghost use Rattle.vg_run.specs.Asked.{IsAsked};
ghost use Rattle.vg_run.specs.Headline.{IsRun};
ghost use Rattle.vg_run.specs.Checks.{IsCheck, IsCommand, IsOrigins, IsUpgrade};
ghost use Rattle.vg_run.specs.Generates.{IsGen, IsGenOfSome};

use vg_script_words::is_number;

/// What the words ask for.
#[derive(Clone, Copy, Debug, PartialEq, Eq)]
pub enum Command {
    /// To run a script beside so many workers, from 1 to 8.
    Run { workers: u32 },
    /// To check a journal.
    Check,
    /// To run the workload of a number with so many clients, from 1 to 16.
    Gen { number: u64, clients: u32 },
    /// To say of a journal whose bytes its frames have.
    Origins,
    /// To write a journal with the queues of version 2.
    Upgrade,
}

/// What the words after the program's name ask for: `run`, `run --workers N` (2 where the words don't say), `check`,
/// `gen --number N --clients C`, in this order, `origins`, or `upgrade`. Numbers are decimal digits without a sign and without a leading
/// zero. None where the words are others.
pub fn command_of(words: &[String]) -> Option<Command>
    ensures { MatchOption result (¬ IsCommand (map string_bytes words.now)) (IsAsked (map string_bytes words.now)) }
{
    if is_check(words) {
        return Some(Command::Check);
    }
    if is_origins(words) {
        return Some(Command::Origins);
    }
    if is_upgrade(words) {
        return Some(Command::Upgrade);
    }
    if let Some((number, clients)) = numbers_of(words) {
        return Some(Command::Gen { number, clients });
    }
    match workers_of(words) {
        Some(workers) => Some(Command::Run { workers }),
        None => None,
    }
}

/// The number and how many clients the words ask for, which are `gen --number N --clients C`: C is from 1 to 16. None where the words
/// are others.
fn numbers_of(words: &[String]) -> Option<(u64, u32)>
    ensures { MatchOption result (¬ IsGenOfSome (map string_bytes words.now)) (λ both. IsGen (map string_bytes words.now) both.0 both.1) }
{
    match words {
        [word, flag, number, other, clients] => in_five(
            word.as_str(),
            flag.as_str(),
            number.as_str(),
            other.as_str(),
            clients.as_str(),
        ),
        _ => None,
    }
}

fn in_five(word: &str, flag: &str, number: &str, other: &str, clients: &str) -> Option<(u64, u32)>
    ensures { MatchOption result (¬ IsGenOfSome (word.now ∷ flag.now ∷ number.now ∷ other.now ∷ clients.now ∷ []))
        (λ both. IsGen (word.now ∷ flag.now ∷ number.now ∷ other.now ∷ clients.now ∷ []) both.0 both.1) }
{
    if word != "gen" {
        return None;
    }
    if flag != "--number" {
        return None;
    }
    if other != "--clients" {
        return None;
    }
    in_two(number, clients)
}

fn in_two(number: &str, clients: &str) -> Option<(u64, u32)>
    ensures { MatchOption result
        ((n c : ℕ) → n < 2 ^ 64 → 1 ≤ c → c ≤ 16 → number.now ≡ decimal n → clients.now ≡ decimal c → ⊥)
        (λ both. (both.0 < 2 ^ 64) × (1 ≤ both.1) × (both.1 ≤ 16) × (number.now ≡ decimal both.0) × (clients.now ≡ decimal both.1)) }
{
    let number = number_of(number)?;
    let clients = count_of(clients)?;
    Some((number, clients))
}

/// The number from 1 to 16 that decimal digits say.
fn count_of(word: &str) -> Option<u32>
    ensures { MatchOption result ((n : ℕ) → 1 ≤ n → n ≤ 16 → word.now ≡ decimal n → ⊥) (λ n. (1 ≤ n) × (n ≤ 16) × (word.now ≡ decimal n)) }
{
    let count = number_of(word)?;
    if is_few(count) {
        Some(count as u32)
    } else {
        None
    }
}

fn is_few(count: u64) -> bool
    ensures { IsTrue result ↔ ((1 ≤ count) × (count ≤ 16)) }
{
    1 <= count && count <= 16
}

/// The number that decimal digits say, without a sign and without a leading zero.
fn number_of(word: &str) -> Option<u64>
    ensures { MatchOption result ((n : ℕ) → n < 2 ^ 64 → word.now ≡ decimal n → ⊥) (λ n. (n < 2 ^ 64) × (word.now ≡ decimal n)) }
{
    if !is_number(word.as_bytes()) {
        return None;
    }
    match word.parse::<u64>() {
        Ok(number) => Some(number),
        Err(_) => None,
    }
}

/// Whether the words are `check` alone.
fn is_check(words: &[String]) -> bool
    ensures { IsTrue result ↔ IsCheck (map string_bytes words.now) }
{
    match words {
        [word] => is_check_word(word.as_str()),
        _ => false,
    }
}

fn is_check_word(word: &str) -> bool
    ensures { IsTrue result ↔ IsCheck (word.now ∷ []) }
{
    word == "check"
}

/// Whether the words are `origins` alone.
fn is_origins(words: &[String]) -> bool
    ensures { IsTrue result ↔ IsOrigins (map string_bytes words.now) }
{
    match words {
        [word] => is_origins_word(word.as_str()),
        _ => false,
    }
}

fn is_origins_word(word: &str) -> bool
    ensures { IsTrue result ↔ IsOrigins (word.now ∷ []) }
{
    word == "origins"
}

/// Whether the words are `upgrade` alone.
fn is_upgrade(words: &[String]) -> bool
    ensures { IsTrue result ↔ IsUpgrade (map string_bytes words.now) }
{
    match words {
        [word] => is_upgrade_word(word.as_str()),
        _ => false,
    }
}

fn is_upgrade_word(word: &str) -> bool
    ensures { IsTrue result ↔ IsUpgrade (word.now ∷ []) }
{
    word == "upgrade"
}

/// How many workers the words ask for, which are `run` or `run --workers N`: N, from 1 to 8, and 2 where it is absent. None where
/// the words are others.
fn workers_of(words: &[String]) -> Option<u32>
    ensures { MatchOption result (¬ IsRun (map string_bytes words.now)) (λ n. IsRun (map string_bytes words.now) × (1 ≤ n) × (n ≤ 8)) }
{
    match words {
        [word] => in_one(word.as_str()),
        [word, flag, count] => in_three(word.as_str(), flag.as_str(), count.as_str()),
        _ => None,
    }
}

fn in_one(word: &str) -> Option<u32>
    ensures { MatchOption result (¬ IsRun (word.now ∷ [])) (λ n. IsRun (word.now ∷ []) × (1 ≤ n) × (n ≤ 8)) }
{
    if word == "run" { Some(2) } else { None }
}

fn in_three(word: &str, flag: &str, count: &str) -> Option<u32>
    ensures { MatchOption result (¬ IsRun (word.now ∷ flag.now ∷ count.now ∷ [])) (λ n. IsRun (word.now ∷ flag.now ∷ count.now ∷ []) × (1 ≤ n) × (n ≤ 8)) }
{
    if word != "run" {
        return None;
    }
    if flag != "--workers" {
        return None;
    }
    digit(count)
}

/// The digit from 1 to 8 that a word is.
fn digit(word: &str) -> Option<u32>
    ensures { MatchOption result ((n : ℕ) → 1 ≤ n → n ≤ 8 → word.now ≡ (48 + n) ∷ [] → ⊥) (λ n. (1 ≤ n) × (n ≤ 8) × (word.now ≡ (48 + n) ∷ [])) }
{
    match word.as_bytes() {
        [digit] if b'1' <= *digit && *digit <= b'8' => Some(u32::from(*digit) - 48),
        _ => None,
    }
}
