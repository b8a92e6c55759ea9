// An answer in one number of 64 bits: the refusal number in bits 32 to 39, the value's 32 bits below.
use state::answers::{Answer, number_of, value_of};

pub(crate) fn packed(a: Answer) -> u64 {
    u64::from(number_of(a)) << 32 | u64::from(value_of(a).cast_unsigned())
}
