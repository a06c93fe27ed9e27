// The exported calls of the packed map.
ghost use Rattle.std.specs.Prelude.{◌≡◌};
ghost use Rattle.map.specs.Ask.{test_answer, count_answer, first_answer};
ghost use Rattle.map.specs.Build.{build_answer, build_words};
ghost use Rattle.map.specs.Update.{update_answer, update_words};
ghost use Rattle.c_answers.specs.Reply.{refusal_number, values_of, count_values};

// Accepted: the number of words written.
pub fn pw_map_build(image: &[u8], marks: &[u8], words: &mut [u64], answer: &mut [i64; 5]) -> u32
    ensures value { result ≡ refusal_number (build_answer image.now marks.now words.old) }
    ensures answer_after { answer.new ≡ values_of count_values (build_answer image.now marks.now words.old) }
    ensures words_after { words.new ≡ build_words image.now marks.now words.old }
{
    c_answers::map_build(image, marks, words).give(answer)
}

// Accepted: 1 where the position is code, else 0.
pub fn pw_map_test(words: &[u64], length: u32, position: u32, answer: &mut [i64; 5]) -> u32
    ensures value { result ≡ refusal_number (test_answer words.now length position) }
    ensures answer_after { answer.new ≡ values_of count_values (test_answer words.now length position) }
{
    c_answers::map_test(words, length, position).give(answer)
}

// Accepted: how many positions of the stretch are code.
pub fn pw_map_count(words: &[u64], length: u32, begin: u32, end: u32, answer: &mut [i64; 5]) -> u32
    ensures value { result ≡ refusal_number (count_answer words.now length begin end) }
    ensures answer_after { answer.new ≡ values_of count_values (count_answer words.now length begin end) }
{
    c_answers::map_count(words, length, begin, end).give(answer)
}

// Accepted: the first data byte's position, or the image's length.
pub fn pw_map_first_data(words: &[u64], length: u32, position: u32, answer: &mut [i64; 5]) -> u32
    ensures value { result ≡ refusal_number (first_answer words.now length position) }
    ensures answer_after { answer.new ≡ values_of count_values (first_answer words.now length position) }
{
    c_answers::map_first_data(words, length, position).give(answer)
}

// Accepted: the number of bits set, which is the instruction's size.
pub fn pw_map_update(
    image: &[u8],
    marks: &[u8],
    words: &mut [u64],
    position: u32,
    answer: &mut [i64; 5],
) -> u32
    ensures value { result ≡ refusal_number (update_answer image.now marks.now words.old position) }
    ensures answer_after { answer.new ≡ values_of count_values (update_answer image.now marks.now words.old position) }
    ensures words_after { words.new ≡ update_words image.now marks.now words.old position }
{
    c_answers::map_update(image, marks, words, position).give(answer)
}
