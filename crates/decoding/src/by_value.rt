// Decoding with the state by value: the lent calls, on the places of the state's array that its count says.
ghost use Rattle.std.specs.Prelude.{◌≡◌};
ghost use Rattle.rule.specs.Configuration.{given};
ghost use Rattle.calls.specs.declared.Way.TheVariants.{General};
ghost use Rattle.calls.specs.ByValue.{held, decode_by_value};

use calls::Way;
use kinds::{Configuration, Refusal};
use sample::{Sample, State};

// What a decoding call gives back beside the piece: the state is the one for the piece that follows, or after a refusal the given one.
#[derive(Clone, Copy)]
pub struct Decoded<S> {
    pub said: Result<(), Refusal>,
    pub state: State<S>,
}

// Decodes a piece where it lies, by the way that is asked for.
pub fn decode_by<S: Sample>(
    way: Way,
    config: Configuration<'_>,
    state: State<S>,
    piece: &mut [S],
) -> Decoded<S>
    ensures { held result.said (S.numbers result.state.samples) result.state.count.0 (S.numbers piece.new) ≡ decode_by_value way S.W (given config.entry) (S.numbers state.samples) state.count.0 (S.numbers piece.old) }
{
    let count = state.count;
    let places = crate::places_lent(count);
    let mut samples = state.samples;
    let said = crate::decode_by(way, config, &mut samples[..places], piece);
    Decoded {
        said,
        state: State { samples, count },
    }
}

// The same by the quicker way.
pub fn decode_in_place<S: Sample>(
    config: Configuration<'_>,
    state: State<S>,
    piece: &mut [S],
) -> Decoded<S>
    ensures { held result.said (S.numbers result.state.samples) result.state.count.0 (S.numbers piece.new) ≡ decode_by_value General S.W (given config.entry) (S.numbers state.samples) state.count.0 (S.numbers piece.old) }
{
    decode_by(crate::quickest_way(config.order), config, state, piece)
}
