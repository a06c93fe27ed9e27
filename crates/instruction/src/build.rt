// Another function that goes through all forms: an instruction put together.
ghost use Rattle.std.specs.Prelude.{◌≡◌, ◌<◌};
ghost use Rattle.instruction.specs.Parts.{made_of};

use crate::instr::{Instr, Parts};

#[tactic(auto, unfolding(crate::specs::Parts::made_of, crate::specs::Forms::form_at, crate::specs::Forms::forms))]
pub fn build(v: Parts) -> Instr
    requires { v.form < 70 }
    ensures { result ≡ made_of v }
{
    let a = v.a;
    let b = v.b;
    let c = v.c;
    match v.form {
        0 => Instr::Add_i8(a),
        1 => Instr::Add_d9(a),
        2 => Instr::Add_Ri(a),
        3 => Instr::Addc_i8(a),
        4 => Instr::Addc_d9(a),
        5 => Instr::Addc_Ri(a),
        6 => Instr::Sub_i8(a),
        7 => Instr::Sub_d9(a),
        8 => Instr::Sub_Ri(a),
        9 => Instr::Subc_i8(a),
        10 => Instr::Subc_d9(a),
        11 => Instr::Subc_Ri(a),
        12 => Instr::Inc_d9(a),
        13 => Instr::Inc_Ri(a),
        14 => Instr::Dec_d9(a),
        15 => Instr::Dec_Ri(a),
        16 => Instr::Mul,
        17 => Instr::Div,
        18 => Instr::And_i8(a),
        19 => Instr::And_d9(a),
        20 => Instr::And_Ri(a),
        21 => Instr::Or_i8(a),
        22 => Instr::Or_d9(a),
        23 => Instr::Or_Ri(a),
        24 => Instr::Xor_i8(a),
        25 => Instr::Xor_d9(a),
        26 => Instr::Xor_Ri(a),
        27 => Instr::Rol,
        28 => Instr::Rolc,
        29 => Instr::Ror,
        30 => Instr::Rorc,
        31 => Instr::Ld_d9(a),
        32 => Instr::Ld_Ri(a),
        33 => Instr::St_d9(a),
        34 => Instr::St_Ri(a),
        35 => Instr::Mov_d9(a, b),
        36 => Instr::Mov_Rj(a, b),
        37 => Instr::Ldc,
        38 => Instr::Push(a),
        39 => Instr::Pop(a),
        40 => Instr::Xch_d9(a),
        41 => Instr::Xch_Ri(a),
        42 => Instr::Jmp(a),
        43 => Instr::Jmpf(a),
        44 => Instr::Br(a),
        45 => Instr::Brf(a),
        46 => Instr::Bz(a),
        47 => Instr::Bnz(a),
        48 => Instr::Bp(a, b, c),
        49 => Instr::Bpc(a, b, c),
        50 => Instr::Bn(a, b, c),
        51 => Instr::Dbnz_d9(a, b),
        52 => Instr::Dbnz_Ri(a, b),
        53 => Instr::Be_i8(a, b),
        54 => Instr::Be_d9(a, b),
        55 => Instr::Be_Rj(a, b, c),
        56 => Instr::Bne_i8(a, b),
        57 => Instr::Bne_d9(a, b),
        58 => Instr::Bne_Rj(a, b, c),
        59 => Instr::Call(a),
        60 => Instr::Callf(a),
        61 => Instr::Callr(a),
        62 => Instr::Ret,
        63 => Instr::Reti,
        64 => Instr::Clr1(a, b),
        65 => Instr::Set1(a, b),
        66 => Instr::Not1(a, b),
        67 => Instr::Nop,
        68 => Instr::Ldf,
        _ => Instr::Stf,
    }
}
