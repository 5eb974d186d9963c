// What a plan answers: Ok, or the first refusal of its tests.
ghost use Rattle.std.specs.Prelude.{◌≡◌};
ghost use Rattle.model.specs.Refusals.{number_of};
ghost use Rattle.model.specs.Arguments.{refuse_if};
ghost use Rattle.model.specs.Calls.{full_unless};
ghost use Rattle.verdicts.specs.Verdicts.{verdict_number};

use model::Refusal;

// A refusal where the test passes.
pub fn refuse_if(test: bool, why: Refusal) -> Result<(), Refusal>
    ensures { verdict_number result ≡ refuse_if test (number_of why) }
{
    if test { Err(why) } else { Ok(()) }
}

// Full, asked last.
pub fn full_unless(fits: bool) -> Result<(), Refusal>
    ensures { verdict_number result ≡ full_unless fits }
{
    refuse_if(!fits, Refusal::Full)
}
