// The line of a refusal: its number, with or without a value. Every number is accepted, since the errors of several crates are told by it.
ghost use Rattle.std.specs.Prelude.{◌≡◌, [], ◌∷◌, ◌+◌, ◌≤◌, length};
ghost use Rattle.std.proofs.lemmas.List.Edits.{sets};
ghost use Rattle.views.specs.View.{viewed_of, room_answer, room_after};
ghost use Rattle.list_text.specs.Decimal.{lowest};
ghost use Rattle.list_text.specs.Refusal.{number_line, value_line};

use crate::decimal;
use views::ViewError;

// What every line begins with: the number, of k digits.
fn put_head(number: usize, k: usize, room: &mut [u8])
    requires { k + 2 ≤ length room.old }
    ensures { room.new ≡ sets room.old 0 (82 ∷ 9 ∷ lowest k number) }
{
    room[0] = b'R';
    room[1] = b'\t';
    decimal::put(number, k, room, 2);
}

pub fn put_number(number: usize, room: &mut [u8]) -> Result<usize, ViewError>
    ensures result_value { viewed_of result ≡ room_answer [] (number_line number) room.old }
    ensures room_after { room.new ≡ room_after [] (number_line number) room.old }
{
    let k = decimal::width(number);
    if room.len() < k + 3 {
        return Err(ViewError::NoRoom(k + 3));
    }
    put_head(number, k, room);
    room[k + 2] = b'\n';
    Ok(k + 3)
}

pub fn put_value(number: usize, value: usize, room: &mut [u8]) -> Result<usize, ViewError>
    ensures result_value { viewed_of result ≡ room_answer [] (value_line number value) room.old }
    ensures room_after { room.new ≡ room_after [] (value_line number value) room.old }
{
    let k = decimal::width(number);
    let j = decimal::width(value);
    let need = k + j + 4;
    if room.len() < need {
        return Err(ViewError::NoRoom(need));
    }
    put_head(number, k, room);
    room[k + 2] = b'\t';
    decimal::put(value, j, room, k + 3);
    room[k + j + 3] = b'\n';
    Ok(need)
}
