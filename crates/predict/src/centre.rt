// The centre MID, and the sums and differences around it, which wrap.
ghost use Rattle.std.specs.Prelude.{◌≡◌, map};
ghost use Rattle.rule.specs.Coding.{toggled, residual};

use sample::Sample;

// MID added, or taken away, which is the same: deltas around 0 become numbers around the middle.
pub fn toggle_center<S: Sample>(number: S) -> S
    ensures { S.number result ≡ toggled S.W (S.number number) }
{
    number.wrapping_add(S::MID)
}

// What is coded of a sample: sample - prediction + MID.
pub fn residual_of<S: Sample>(sample: S, prediction: S) -> S
    ensures { S.number result ≡ residual S.W (S.number sample) (S.number prediction) }
{
    toggle_center(sample.wrapping_sub(prediction))
}

// The same in every place.
pub fn toggle_center_in_place<S: Sample>(numbers: &mut [S])
    ensures { S.numbers numbers.new ≡ map (toggled S.W) (S.numbers numbers.old) }
{
    for i in 0..numbers.len() {
        numbers[i] = toggle_center(numbers[i]);
    }
}
