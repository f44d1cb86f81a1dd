// Numbers in arguments.
ghost use Rattle.std.specs.Prelude.{◌≡◌};
ghost use Rattle.std.specs.List.{list_all};
ghost use Rattle.blic_words.specs.Options.{is_digit, number_in as number_of};

/// The number that one to ten decimal digits write, if it is from `low` to `high`.
pub(crate) fn number_in(low: u32, high: u32, text: &str) -> Option<u32>
    ensures { result ≡ number_of low high text.now }
{
    if text.is_empty() || text.len() > 10 || !has_only_digits(text) {
        return None;
    }
    match text.parse::<u32>() {
        Ok(number) if low <= number && number <= high => Some(number),
        _ => None,
    }
}

fn has_only_digits(text: &str) -> bool
    ensures { result ≡ list_all is_digit text.now }
{
    text.as_bytes().iter().all(|byte| byte.is_ascii_digit())
}
