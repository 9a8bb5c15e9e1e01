// Numbers in a line.
ghost use Rattle.std.specs.Prelude.{◌≡◌};
ghost use Rattle.lines.specs.Text.{number as Text·number};

// Reads a number in decimal without leading zeros, from 0 to the largest of a u32.
#[tactic(auto, using(crate::proofs::Laws::number_plus, crate::proofs::Laws::number_zero, crate::proofs::Laws::number_zeros, crate::proofs::Laws::number_parsed))]
pub(crate) fn number(word: &str) -> Option<u32>
    ensures { result ≡ Text·number u32.MAX word.now }
{
    // `parse` would read a plus, and zeros in front
    if word.starts_with('+') {
        return None;
    }
    if word.starts_with('0') {
        return (word.len() == 1).then_some(0);
    }
    word.parse().ok()
}
