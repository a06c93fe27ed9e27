// The exported calls on instructions. A form is passed as a first byte: all 256 name one, so that there is no further refusal.
ghost use Rattle.std.specs.Prelude.{◌≡◌};
ghost use Rattle.instruction.specs.Decode.{decode_answer};
ghost use Rattle.instruction.specs.Encode.{encode_answer, encode_room};
ghost use Rattle.instruction.specs.Resolve.{resolve_answer};
ghost use Rattle.targets.specs.Targets.{targets_answer};
ghost use Rattle.c_answers.specs.Modes.{mode_of};
ghost use Rattle.c_answers.specs.Reply.{refusal_number, values_of, count_values};
ghost use Rattle.c_answers.specs.Codec.{instr_values, named, targets_values};

// Accepted: form, size, three operands.
#[unsafe(no_mangle)]
pub extern "C" fn pw_decode(bytes: &[u8], answer: &mut [i64; 5]) -> u32
    ensures value { result ≡ refusal_number (decode_answer bytes.now) }
    ensures answer_after { answer.new ≡ values_of instr_values (decode_answer bytes.now) }
{
    pottagewing::pw_decode(bytes, answer)
}

// Accepted: the number of bytes written.
#[unsafe(no_mangle)]
pub extern "C" fn pw_encode(
    first: u8,
    a: i32,
    b: i32,
    c: i32,
    out: &mut [u8],
    answer: &mut [i64; 5],
) -> u32
    ensures value { result ≡ refusal_number (encode_answer (named first a b c) out.old) }
    ensures answer_after { answer.new ≡ values_of count_values (encode_answer (named first a b c) out.old) }
    ensures out_after { out.new ≡ encode_room (named first a b c) out.old }
{
    pottagewing::pw_encode(first, a, b, c, out, answer)
}

// Accepted: form, size, three fields.
#[unsafe(no_mangle)]
pub extern "C" fn pw_resolve(
    mode: u32,
    first: u8,
    a: i32,
    b: i32,
    c: i32,
    base: u32,
    answer: &mut [i64; 5],
) -> u32
    ensures value { result ≡ refusal_number (resolve_answer (mode_of mode) (named first a b c) base) }
    ensures answer_after { answer.new ≡ values_of instr_values (resolve_answer (mode_of mode) (named first a b c) base) }
{
    pottagewing::pw_resolve(mode, first, a, b, c, base, answer)
}

// Accepted: how many targets, then the targets.
#[unsafe(no_mangle)]
pub extern "C" fn pw_targets(
    mode: u32,
    position: u32,
    first: u8,
    a: i32,
    b: i32,
    c: i32,
    answer: &mut [i64; 5],
) -> u32
    ensures value { result ≡ refusal_number (targets_answer (mode_of mode) position (named first a b c)) }
    ensures answer_after { answer.new ≡ values_of targets_values (targets_answer (mode_of mode) position (named first a b c)) }
{
    pottagewing::pw_targets(mode, position, first, a, b, c, answer)
}
