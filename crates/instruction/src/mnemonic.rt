// Mnemonics, as letters in one number: the first letter lowest, a byte each.
ghost use Rattle.std.specs.Prelude.{◌≡◌, ◌<◌};
ghost use Rattle.instruction.specs.Mnemonic.{mnemonic_of, packed_letters};
ghost use Rattle.instruction.specs.Parts.{parts_of};

use crate::instr::{Instr, Parts};

// By the number of the form: "add" is 0x646461.
fn letters(form: u8) -> u64
    requires { form < 70 }
    ensures { result ≡ packed_letters (mnemonic_of form) }
{
    match form {
        0 => 0x646461, // Add_i8
        1 => 0x646461, // Add_d9
        2 => 0x646461, // Add_Ri
        3 => 0x63646461, // Addc_i8
        4 => 0x63646461, // Addc_d9
        5 => 0x63646461, // Addc_Ri
        6 => 0x627573, // Sub_i8
        7 => 0x627573, // Sub_d9
        8 => 0x627573, // Sub_Ri
        9 => 0x63627573, // Subc_i8
        10 => 0x63627573, // Subc_d9
        11 => 0x63627573, // Subc_Ri
        12 => 0x636E69, // Inc_d9
        13 => 0x636E69, // Inc_Ri
        14 => 0x636564, // Dec_d9
        15 => 0x636564, // Dec_Ri
        16 => 0x6C756D, // Mul
        17 => 0x766964, // Div
        18 => 0x646E61, // And_i8
        19 => 0x646E61, // And_d9
        20 => 0x646E61, // And_Ri
        21 => 0x726F, // Or_i8
        22 => 0x726F, // Or_d9
        23 => 0x726F, // Or_Ri
        24 => 0x726F78, // Xor_i8
        25 => 0x726F78, // Xor_d9
        26 => 0x726F78, // Xor_Ri
        27 => 0x6C6F72, // Rol
        28 => 0x636C6F72, // Rolc
        29 => 0x726F72, // Ror
        30 => 0x63726F72, // Rorc
        31 => 0x646C, // Ld_d9
        32 => 0x646C, // Ld_Ri
        33 => 0x7473, // St_d9
        34 => 0x7473, // St_Ri
        35 => 0x766F6D, // Mov_d9
        36 => 0x766F6D, // Mov_Rj
        37 => 0x63646C, // Ldc
        38 => 0x68737570, // Push
        39 => 0x706F70, // Pop
        40 => 0x686378, // Xch_d9
        41 => 0x686378, // Xch_Ri
        42 => 0x706D6A, // Jmp
        43 => 0x66706D6A, // Jmpf
        44 => 0x7262, // Br
        45 => 0x667262, // Brf
        46 => 0x7A62, // Bz
        47 => 0x7A6E62, // Bnz
        48 => 0x7062, // Bp
        49 => 0x637062, // Bpc
        50 => 0x6E62, // Bn
        51 => 0x7A6E6264, // Dbnz_d9
        52 => 0x7A6E6264, // Dbnz_Ri
        53 => 0x6562, // Be_i8
        54 => 0x6562, // Be_d9
        55 => 0x6562, // Be_Rj
        56 => 0x656E62, // Bne_i8
        57 => 0x656E62, // Bne_d9
        58 => 0x656E62, // Bne_Rj
        59 => 0x6C6C6163, // Call
        60 => 0x666C6C6163, // Callf
        61 => 0x726C6C6163, // Callr
        62 => 0x746572, // Ret
        63 => 0x69746572, // Reti
        64 => 0x31726C63, // Clr1
        65 => 0x31746573, // Set1
        66 => 0x31746F6E, // Not1
        67 => 0x706F6E, // Nop
        68 => 0x66646C, // Ldf
        _ => 0x667473, // Stf
    }
}

impl Parts {
    // A number that no form has has no letters.
    #[tactic(auto, using(crate::proofs::NoForm::no_letters))]
    pub fn mnemonic(self) -> u64
        ensures { result ≡ packed_letters (mnemonic_of self.form) }
    {
        if Instr::FORMS <= self.form {
            return 0;
        }
        letters(self.form)
    }
}

impl Instr {
    pub fn mnemonic(self) -> u64
        ensures { result ≡ packed_letters (mnemonic_of (parts_of self).form) }
    {
        self.apart().mnemonic()
    }
}
