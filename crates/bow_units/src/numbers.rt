// Decimal numbers.
ghost use Rattle.std.specs.Prelude.{◌≡◌, ◌<◌, ◌≤◌, ◌^◌, ℕ, ◌↔◌, length, get_or, true, IsTrue, IfSome, IfNone};
ghost use Rattle.std.specs.Fmt.{decimal};
ghost use Rattle.std.specs.List.{list_all};
ghost use Rattle.std.specs.Char.{is_ascii_digit};
ghost use Rattle.bow_units.specs.Numbers.{value_of};

/// The number that a decimal word spells: 1 to 20 digits, with no needless zero in front. `None` is
/// for every other word: no digits, another byte, a needless zero, or a number of 2^64 and above.
pub fn read_number(word: &[u8]) -> Option<u64>
    ensures found { IfSome result (λ n. word.now ≡ decimal n) }
    ensures none { IfNone result ((n : ℕ) → n < 2 ^ 64 → word.now ≡ decimal n → ⊥) }
{
    if word.is_empty() {
        return None;
    }
    if word.len() > 20 {
        return None;
    }
    if is_padded(word) {
        return None;
    }
    if !all_digits(word) {
        return None;
    }
    let value = value_of_digits(word);
    if value < 0x1_0000_0000_0000_0000 {
        Some(value as u64)
    } else {
        None
    }
}

// A needless zero stands in front.
fn is_padded(word: &[u8]) -> bool
    ensures { IsTrue result ↔ ((1 < length word.now) × (get_or word.now 0 0 ≡ 48)) }
{
    word.len() > 1 && word[0] == b'0'
}

fn all_digits(word: &[u8]) -> bool
    ensures { result ≡ list_all is_ascii_digit word.now }
{
    word.iter().all(|byte| byte.is_ascii_digit())
}

fn value_of_digits(word: &[u8]) -> u128
    requires few { length word.now ≤ 20 }
    requires digits { list_all is_ascii_digit word.now ≡ true }
    ensures { result ≡ value_of 0 word.now }
{
    let mut value = 0u128;
    for byte in word {
        value = 10 * value + (*byte - b'0') as u128;
    }
    value
}
