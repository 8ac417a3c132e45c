// How many bytes a problem's text has, before the first of them is written. No entry: crate problem_calls calls it.
#![tactic(auto)]

ghost use Rattle.std.specs.Prelude.{[], ◌∷◌, ◌≡◌, ◌*◌, ◌≤◌, length};
ghost use Rattle.theory.specs.Tables.{tables};
ghost use Rattle.theory.specs.Question.{question};
ghost use Rattle.text_decimal.specs.Decimal.{digits};
ghost use Rattle.text_decimal.specs.Text.{further, listed, line};
ghost use Rattle.text_question.specs.Question.{legs_lines, text_of};
ghost use Rattle.text_sizes.specs.Parts.{header_text, tables_text, SizeOf, ShortLine, FewRows, FewTables, Sizeable};

// How many digits a number has.
fn digit_count(value: u64) -> usize
    ensures { SizeOf (digits value) 20 result }
{
    // No list is walked: each turn takes a digit off the number.
    let mut rest = value / 10;
    let mut count = 1;
    while rest > 0 {
        rest = rest / 10;
        count += 1;
    }
    count
}

// Numbers, each after a comma.
fn further_size(values: &[u32]) -> usize
    requires { length values.now ≤ 512 }
    ensures { SizeOf (further values.now) (21 * length values.now) result }
{
    let mut size = 0;
    for &value in values {
        size += 1 + digit_count(value as u64);
    }
    size
}

// Numbers with commas between.
fn list_size(values: &[u32]) -> usize
    requires { length values.now ≤ 512 }
    ensures { SizeOf (listed values.now) (21 * length values.now) result }
{
    if values.len() == 0 {
        return 0;
    }
    further_size(values) - 1
}

// A line of numbers.
fn line_size(key: &[u8], values: &[u32]) -> usize
    requires { ShortLine key.now values.now }
    ensures { SizeOf (line key.now values.now) 10763 result }
{
    key.len() + list_size(values) + 1
}

// A line of one number.
fn value_size(key: &[u8], value: u64) -> usize
    requires { length key.now ≤ 10 }
    ensures { SizeOf (line key.now (value ∷ [])) 31 result }
{
    key.len() + digit_count(value) + 1
}

// The lines of the legs.
fn rows_size(locations: usize, legs: &[u32]) -> usize
    requires { FewRows locations legs.now }
    ensures { SizeOf (legs_lines locations locations legs.now) 1033248 result }
{
    let mut size = 0;
    for row in 0..locations {
        let start = row * locations;
        let end = start + locations;
        size += line_size(b"legs=", &legs[start..end]);
    }
    size
}

// The lines before the legs.
fn header_size(k: u64, allowance: u64, locations: u64, depot: u64, end: u64) -> usize
    ensures { SizeOf (header_text k allowance locations depot end) 155 result }
{
    let of_k = value_size(b"k=", k);
    let of_allowance = value_size(b"allowance=", allowance);
    let of_locations = value_size(b"locations=", locations);
    let of_depot = value_size(b"depot=", depot);
    let of_end = value_size(b"end=", end);
    of_k + of_allowance + of_locations + of_depot + of_end
}

// The legs, the deadlines and the service times.
fn tables_size(locations: usize, legs: &[u32], latest: &[u32], service: &[u32]) -> usize
    requires { FewTables (tables locations legs.now latest.now service.now) }
    ensures { SizeOf (tables_text (tables locations legs.now latest.now service.now)) 1054774 result }
{
    let of_legs = rows_size(locations, legs);
    let of_latest = line_size(b"latest=", latest);
    let of_service = line_size(b"service=", service);
    of_legs + of_latest + of_service
}

// The whole text.
pub fn question_size(
    k: usize,
    allowance: u64,
    locations: usize,
    legs: &[u32],
    latest: &[u32],
    service: &[u32],
    depot: u32,
    end: u32,
    route: &[u32],
) -> usize
    requires { Sizeable (question k allowance locations legs.now latest.now service.now depot end route.now) }
    ensures { result ≡ length (text_of (question k allowance locations legs.now latest.now service.now depot end route.now)) }
{
    let of_header = header_size(
        k as u64,
        allowance,
        locations as u64,
        depot as u64,
        end as u64,
    );
    let of_tables = tables_size(locations, legs, latest, service);
    let of_round = line_size(b"round=", route);
    of_header + of_tables + of_round
}
