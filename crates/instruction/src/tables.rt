// Tables of bytes, eight to a word, the first lowest. The toolchain copies a const array at each read; a match on numbers is one load.
// Where sixteen arms are written out, those past the table repeat its last word, so that no test is left.
ghost use Rattle.std.specs.Prelude.{◌≡◌, ◌*◌, ◌/◌, ◌%◌, ◌^◌, ◌<◌};
ghost use Rattle.instruction.specs.Tables.{table_word, by_column, fixed_at, shape_at};

// The byte of a word with a number.
pub fn byte_of(word: u64, k: u8) -> u8
    requires { k < 8 }
    ensures { result ≡ word / 2 ^ (8 * k) % 256 }
{
    ((word >> (8 * k)) % 256) as u8
}

// The forms by first byte: document 01's five columns, rows 0 to 7 of each and then rows 8 to 15.
pub fn forms(w: u8) -> u64
    requires { w < 10 }
    ensures { result ≡ table_word by_column w }
{
    match w % 16 {
        0 => 0x2726_4411_103C_3D43, // Nop Callr Callf Mul Div Ldf Push Pop
        1 => 0x1C1B_1E1D_3F3E_2F2E, // Bz Bnz Ret Reti Ror Rorc Rol Rolc
        2 => 0x2726_4538_352B_2D2C, // Br Brf Jmpf Be_i8 Bne_i8 Stf Push Pop
        3 => 0x1812_1525_0906_0300, // Add_i8 Addc_i8 Sub_i8 Subc_i8 Ldc Or_i8 And_i8 Xor_i8
        4 => 0x0E0C_3339_3623_211F, // Ld_d9 St_d9 Mov_d9 Be_d9 Bne_d9 Dbnz_d9 Inc_d9 Dec_d9
        5 => 0x1913_1628_0A07_0401, // Add_d9 Addc_d9 Sub_d9 Subc_d9 Xch_d9 Or_d9 And_d9 Xor_d9
        6 => 0x0F0D_343A_3724_2220, // Ld_Ri St_Ri Mov_Rj Be_Rj Bne_Rj Dbnz_Ri Inc_Ri Dec_Ri
        7 => 0x1A14_1729_0B08_0502, // Add_Ri Addc_Ri Sub_Ri Subc_Ri Xch_Ri Or_Ri And_Ri Xor_Ri
        8 => 0x3030_3131_2A2A_3B3B, // Call Call Jmp Jmp Bpc Bpc Bp Bp
        9 => 0x4141_4040_4242_3232, // Bn Bn Not1 Not1 Clr1 Clr1 Set1 Set1
        10 => 0x4141_4040_4242_3232,
        11 => 0x4141_4040_4242_3232,
        12 => 0x4141_4040_4242_3232,
        13 => 0x4141_4040_4242_3232,
        14 => 0x4141_4040_4242_3232,
        _ => 0x4141_4040_4242_3232,
    }
}

// The first byte of each form with its operands' bits 0.
pub fn fixed(w: u8) -> u64
    requires { w < 9 }
    ensures { result ≡ table_word fixed_at w }
{
    match w {
        0 => 0xA2A1_9492_9184_8281, // Add_i8 Add_d9 Add_Ri Addc_i8 Addc_d9 Addc_Ri Sub_i8 Sub_d9
        1 => 0x7472_6462_B4B2_B1A4, // Sub_Ri Subc_i8 Subc_d9 Subc_Ri Inc_d9 Inc_Ri Dec_d9 Dec_Ri
        2 => 0xD4D2_D1E4_E2E1_4030, // Mul Div And_i8 And_d9 And_Ri Or_i8 Or_d9 Or_Ri
        3 => 0x02D0_C0F0_E0F4_F2F1, // Xor_i8 Xor_d9 Xor_Ri Rol Rolc Ror Rorc Ld_d9
        4 => 0x7060_C124_2214_1204, // Ld_Ri St_d9 St_Ri Mov_d9 Mov_Rj Ldc Push Pop
        5 => 0x9080_1101_2128_C4C2, // Xch_d9 Xch_Ri Jmp Jmpf Br Brf Bz Bnz
        6 => 0x3432_3154_5288_4868, // Bp Bpc Bn Dbnz_d9 Dbnz_Ri Be_i8 Be_d9 Be_Rj
        7 => 0xB0A0_1020_0844_4241, // Bne_i8 Bne_d9 Bne_Rj Call Callf Callr Ret Reti
        _ => 0x0000_5150_00A8_E8C8, // Clr1 Set1 Not1 Nop Ldf Stf
    }
}

// The place of the shape of each form.
pub fn shapes(w: u8) -> u64
    requires { w < 9 }
    ensures { result ≡ table_word shape_at w }
{
    match w % 16 {
        0 => 0x0201_0302_0103_0201, // Imm D9 Ri Imm D9 Ri Imm D9
        1 => 0x0302_0302_0302_0103, // Ri Imm D9 Ri D9 Ri D9 Ri
        2 => 0x0302_0103_0201_0000, // Bare Bare Imm D9 Ri Imm D9 Ri
        3 => 0x0200_0000_0003_0201, // Imm D9 Ri Bare Bare Bare Bare D9
        4 => 0x0202_0005_0403_0203, // Ri D9 Ri ImmD9 ImmRi Bare D9 D9
        5 => 0x0A0A_090A_0807_0302, // D9 Ri A12 A16 R8 R16 R8 R8
        6 => 0x0F0C_0E0D_0C0B_0B0B, // D9B3R8 D9B3R8 D9B3R8 D9R8 RiR8 ImmR8 D9R8 RiImmR8
        7 => 0x0000_0908_070F_0C0E, // ImmR8 D9R8 RiImmR8 A12 A16 R16 Bare Bare
        8 => 0x0000_0000_0006_0606, // D9B3 D9B3 D9B3 Bare Bare Bare
        9 => 0x0000_0000_0006_0606,
        10 => 0x0000_0000_0006_0606,
        11 => 0x0000_0000_0006_0606,
        12 => 0x0000_0000_0006_0606,
        13 => 0x0000_0000_0006_0606,
        14 => 0x0000_0000_0006_0606,
        _ => 0x0000_0000_0006_0606,
    }
}
