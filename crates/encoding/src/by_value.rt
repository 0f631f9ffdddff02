// Encoding with what it hands back by value: the lent call, on an array of its own for the state, or on the caller's.
ghost use Rattle.std.specs.Prelude.{◌≡◌, ◌+◌, ◌*◌, ◌/◌};
ghost use Rattle.rule.specs.Configuration.{given};
ghost use Rattle.calls.specs.Encode as calls;
ghost use Rattle.calls.specs.ByValue.{saved, encode_by_value, handed, handed_of, begins};

use kinds::{Configuration, Refusal, SampleCount};
use sample::{Sample, State};

#[derive(Clone, Copy)]
pub struct Encoded<S> {
    pub said: Result<(), Refusal>,
    pub state: State<S>,
}

// Codes the whole slice, and the saved state comes back by value, all zeros beside a refusal. An order that no array has room for is
// refused here.
pub fn encode_in_place<S: Sample>(config: Configuration<'_>, samples: &mut [S]) -> Encoded<S>
    ensures { saved result.said (S.numbers samples.new) (S.numbers result.state.samples) result.state.count.0 ≡ encode_by_value S.W (given config.entry) (S.numbers samples.old) }
{
    let mut first = [S::ZERO; 32];
    let k = config.order.0;
    let said = if admission::limits::is_order(config.order) {
        crate::encode_into(config, samples, &mut first[..k])
    } else {
        Err(Refusal::BadOrder)
    };
    let count = if said.is_ok() { k } else { 0 };
    Encoded {
        said,
        state: State {
            samples: first,
            count: SampleCount(count),
        },
    }
}

// The same with the state lent, and the residuals come back as the part of `samples` that holds them, or as an empty part after a
// refusal, with the answer's number beside it.
#[tactic(auto, using(rule::proofs::Passing::encoding_passed, calls::proofs::Leaving::encode_said))]
pub fn encode<'a, 'b, 'c, S: Sample>(
    config: Configuration<'_>,
    samples: &'a mut [S],
    state: &'b mut [S],
    number: &'c mut u32,
) -> &'a mut [S]
    ensures number_after { handed (S.numbers result.now) (S.numbers state.new) number.new ≡ handed_of config.entry.order.0 (calls.encode S.W (given config.entry) (S.numbers samples.old) (S.numbers state.old)) }
    ensures ref_ptr_value { result.ref_ptr ≡ (samples.entry.ref_ptr.0, begins config.entry.order.0 (calls.encode S.W (given config.entry) (S.numbers samples.old) (S.numbers state.old)) * (S.W / 8) + samples.entry.ref_ptr.1) }
{
    let k = config.order.0;
    let said = crate::encode_into(config, samples, state);
    *number = kinds::number(said);
    let from = if said.is_ok() { k } else { samples.len() };
    &mut samples[from..]
}
