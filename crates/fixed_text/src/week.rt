// Seconds of a week, and the text of a start.
ghost use Rattle.std.specs.Prelude.{◌≡◌, ℕ, ◌+◌, ◌*◌, ◌/◌, ◌%◌, ◌<◌, ◌≤◌, Some, IfSome, IsSomeAnd};
ghost use Rattle.fixed_text.specs.Texts.{IsStartText};

/// A second of the week: 0 is Monday at 00:00:00. `docs/language.md`, "Predicates and time", has the rule.
#[derive(Clone, Copy, Debug, PartialEq, Eq)]
pub struct WeekSecond {
    /// Seconds since Monday at 00:00:00, below 604800.
    pub second: u32,
    ghost in_week: { second < 604800 },
}

/// The second of the week that a text `D:HH:MM:SS` names: D is a digit from 1 (Monday) to 7, and HH, MM and SS have
/// two digits up to 23, 59 and 59. `None` exactly for any other text. It takes no memory.
pub fn read_start(text: &[u8]) -> Option<WeekSecond>
    ensures found { IfSome result (λ at. IsStartText text.now at.second) }
    ensures only { (second : ℕ) → IsStartText text.now second → IsSomeAnd result (λ at. at.second ≡ second) }
{
    match text {
        [day, b':', h, hh, b':', m, mm, b':', s, ss] => {
            if *day < b'1' || *day > b'7' {
                return None;
            }
            let day = u32::from(*day - b'1');
            let hour = two_digits(*h, *hh, 23)?;
            let minute = two_digits(*m, *mm, 59)?;
            let second = two_digits(*s, *ss, 59)?;
            Some(WeekSecond {
                second: day * 86_400 + hour * 3600 + minute * 60 + second,
            })
        }
        _ => None,
    }
}

// The number below 100 that two digits of a time write; `None` if it is more than `most`, or if one is no digit.
fn two_digits(tens: u8, ones: u8, most: u32) -> Option<u32>
    requires { most < 100 }
    ensures found { IfSome result (λ n. (n ≤ most) × (tens ≡ 48 + n / 10) × (ones ≡ 48 + n % 10)) }
    ensures only { (n : ℕ) → n ≤ most → tens ≡ 48 + n / 10 → ones ≡ 48 + n % 10 → result ≡ Some n }
{
    if !tens.is_ascii_digit() || !ones.is_ascii_digit() {
        return None;
    }
    let value = u32::from(tens - b'0') * 10 + u32::from(ones - b'0');
    if value <= most { Some(value) } else { None }
}
