//! The parser of the program's command line.
ghost use Rattle.std.specs.Prelude.{◌≡◌, ◌≤◌, true, false, map, IfSome, MatchOption};
ghost use Rattle.std.specs.Str.Parse.{digits_value};
ghost use Rattle.std.specs.String.{string_bytes};
ghost use Rattle.elsa_program.specs.Jobs.{IsWithinLimits, is_number_within, job_of};

use crate::digits::number_of;
pub use crate::jobs::Job;

/// Returns the number that a word writes in digits, if it is from `low` to `high`.
fn number_within(word: &str, low: u64, high: u64) -> Option<usize>
    ensures parsed { MatchOption result (is_number_within low high word.now ≡ false)
        (λ n. (is_number_within low high word.now ≡ true) × (n ≡ digits_value 10 word.now)) }
    ensures within { IfSome result (λ n. (low ≤ n) × (n ≤ high)) }
{
    let number = number_of(word)?;
    if number < low || number > high {
        return None;
    }
    Some(number as usize)
}

/// Returns the job of the words after the program's name, or `None` if they are wrong. It allocates
/// nothing.
///
/// The jobs are `intern` and `shared W N`. `W` is a number from 1 to 16, and `N` is one from 0 to
/// 100000. Each is written in ASCII digits without a sign, and may begin with zeros.
pub fn job(words: &[String]) -> Option<Job>
    ensures parsed { result ≡ job_of (map string_bytes words.now) }
    ensures limits { IfSome result (λ job. IsWithinLimits job) }
{
    match words {
        [word] if word.as_str() == "intern" => Some(Job::Intern),
        [word, workers, numbers] if word.as_str() == "shared" => {
            let workers = number_within(workers.as_str(), 1, 16)?;
            let numbers = number_within(numbers.as_str(), 0, 100_000)?;
            Some(Job::Shared(workers, numbers))
        }
        _ => None,
    }
}
