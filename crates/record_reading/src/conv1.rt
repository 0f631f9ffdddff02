// The reader of a Conv1, from behind the variant to the last weight.
ghost use Rattle.std.specs.Prelude.{◌≡◌, ◌*◌, ◌^◌, ◌≤◌, ◌<◌, length};
ghost use Rattle.record.specs.Format.{weights_at};
ghost use Rattle.record.specs.Reading.{read_weights, read_conv1};
ghost use Rattle.record.specs.Signed.{lowered};
ghost use Rattle.record.specs.Widths.{variant_bits};

use crate::read_field;
use kinds::{Order, Refusal, Shift};
use record::{
    AFTER_BIAS, AFTER_N_WEIGHTS, AFTER_QUANTIZATION, AFTER_VARIANT, BITS_TO_ENCODE_DELTA_CONV_BIAS,
    BITS_TO_ENCODE_DELTA_CONV_N_WEIGHTS, BITS_TO_ENCODE_DELTA_CONV_QUANTIZATION,
    BITS_TO_ENCODE_DELTA_CONV_WEIGHT, DeltaEncoding, Reading, give,
};

// Less 2^31.
fn weight_from_latent_ordered(latent: u64) -> i32
    requires { latent < 2 ^ 32 }
    ensures { result ≡ lowered 31 latent }
{
    (latent as i64 - 2147483648) as i32
}

// Less 2^63.
fn bias_from_latent_ordered(latent: u64) -> i64
    ensures { result ≡ lowered 63 latent }
{
    (latent as i128 - 9223372036854775808) as i64
}

// The weights, as the last fields of an encoding whose other fields are read.
fn read_weights(bytes: &[u8], encoding: DeltaEncoding, order: Order) -> Result<Reading, Refusal>
    requires { (0 < order.0) × (order.0 ≤ 32) × (weights_at ≤ 8 * length bytes.now) }
    ensures { result ≡ read_weights bytes.now weights_at encoding order.0 }
{
    let mut weights = [0i32; 32];
    for (i, weight) in weights[..order.0].iter_mut().enumerate() {
        let at = AFTER_N_WEIGHTS + BITS_TO_ENCODE_DELTA_CONV_WEIGHT * i;
        let latent = read_field(bytes, at, BITS_TO_ENCODE_DELTA_CONV_WEIGHT)?;
        *weight = weight_from_latent_ordered(latent);
    }
    let bits = AFTER_N_WEIGHTS + BITS_TO_ENCODE_DELTA_CONV_WEIGHT * order.0;
    give(encoding, weights, bits)
}

#[tactic(auto, unfolding(record::specs::Reading::reading, record::specs::Reading::read_conv1))]
pub fn read_conv1(bytes: &[u8]) -> Result<Reading, Refusal>
    ensures { result ≡ read_conv1 bytes.now variant_bits }
{
    let quantization = read_field(bytes, AFTER_VARIANT, BITS_TO_ENCODE_DELTA_CONV_QUANTIZATION)?;
    let bias = read_field(bytes, AFTER_QUANTIZATION, BITS_TO_ENCODE_DELTA_CONV_BIAS)?;
    let n_weights = read_field(bytes, AFTER_BIAS, BITS_TO_ENCODE_DELTA_CONV_N_WEIGHTS)?;
    let order = Order(n_weights as usize + 1);
    let encoding = DeltaEncoding::Conv1 {
        quantization: Shift(quantization as u32),
        bias: bias_from_latent_ordered(bias),
        order,
    };
    read_weights(bytes, encoding, order)
}
