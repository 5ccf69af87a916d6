// Verdicts: accepted with the number of rows, or refused with the sheet at fault.
ghost use Rattle.std.specs.Prelude.{◌≡◌};
ghost use Rattle.answers.specs.Answers.{sheet_number, says};

// The sheet at fault, with the refusal's number and index.
#[derive(Clone, Copy)]
pub enum Sheet {
    Claim(u32, usize),
    Proof(u32, usize),
    Output(u32, usize),
    Offsets(u32, usize),
    Range(u32, usize),
    Limits(u32, usize),
    Page(u32, usize),
    Profile(u32, usize),
    Buffer(u32, usize),
    Table(u32, usize),
    Site(u32, usize),
}

#[derive(Clone, Copy)]
pub enum Verdict {
    Accepted(usize),
    Refused(Sheet),
}

impl From<Result<usize, Sheet>> for Verdict {
    ghost use Rattle.std.specs.Prelude.{◌≡◌};
    ghost use Rattle.answers.specs.Answers.{says, counted};

    ghost from_gives = { λ outcome verdict. says verdict ≡ counted outcome };

    #[tactic(auto, unfolding(crate::specs::Answers::says))]
    fn from(outcome: Result<usize, Sheet>) -> Verdict {
        match outcome {
            Ok(k) => Verdict::Accepted(k),
            Err(sheet) => Verdict::Refused(sheet),
        }
    }
}

// A verdict in numbers: the sheet at fault, the refusal's number and its index, or 0, 0 and k where it is accepted.
#[derive(Clone, Copy)]
pub struct Numbers {
    pub sheet: u32,
    pub number: u32,
    pub value: usize,
}

// A verdict's numbers, one by one.
fn in_numbers(sheet: u32, number: u32, value: usize) -> Numbers
    ensures { (result.sheet ≡ sheet) × (result.number ≡ number) × (result.value ≡ value) }
{
    Numbers {
        sheet,
        number,
        value,
    }
}

// What a verdict says, in numbers.
#[tactic(auto, unfolding(crate::specs::Answers::says, crate::specs::Answers::accepted))]
pub fn numbers_of(verdict: Verdict) -> Numbers
    ensures { (result.sheet ≡ sheet_number (says verdict).blamed) × (result.number ≡ (says verdict).number)
        × (result.value ≡ (says verdict).value) }
{
    match verdict {
        Verdict::Accepted(k) => in_numbers(0, 0, k),
        Verdict::Refused(Sheet::Claim(number, value)) => in_numbers(1, number, value),
        Verdict::Refused(Sheet::Proof(number, value)) => in_numbers(2, number, value),
        Verdict::Refused(Sheet::Output(number, value)) => in_numbers(3, number, value),
        Verdict::Refused(Sheet::Offsets(number, value)) => in_numbers(4, number, value),
        Verdict::Refused(Sheet::Range(number, value)) => in_numbers(5, number, value),
        Verdict::Refused(Sheet::Limits(number, value)) => in_numbers(6, number, value),
        Verdict::Refused(Sheet::Page(number, value)) => in_numbers(7, number, value),
        Verdict::Refused(Sheet::Profile(number, value)) => in_numbers(8, number, value),
        Verdict::Refused(Sheet::Buffer(number, value)) => in_numbers(9, number, value),
        Verdict::Refused(Sheet::Table(number, value)) => in_numbers(10, number, value),
        Verdict::Refused(Sheet::Site(number, value)) => in_numbers(11, number, value),
    }
}
