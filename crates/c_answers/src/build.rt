// The answer of a build or of a check, which is only whether it is refused.
ghost use Rattle.std.specs.Prelude.{◌≡◌};
ghost use Rattle.c_answers.specs.DoneNumbers.{number_as, place_as};

use layout::refusals::Refused;

// 0 and 0; or document 01's number, and the place.
// Kept: beside `number_of_answer`, since C lends one place here, and two words to a question: by a const parameter
// `Words` would say for each length what a refusal writes as well, and `impl Words<1> for ()` serve this one caller.
pub fn number_of_done<R: Refused>(done: Result<(), R>, place: &mut [usize; 1]) -> u8
    ensures { (result ≡ number_as R.as_pair done) × (place.new ≡ place_as R.as_pair done) }
{
    match done {
        Ok(()) => {
            *place = [0];
            0
        }
        Err(refusal) => {
            *place = [refusal.place()];
            refusal.number()
        }
    }
}
