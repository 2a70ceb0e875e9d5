ghost use Rattle.std.specs.Prelude.{◌≡◌, ◌+◌, ◌^◌, ◌<◌, is_ok, if◌then◌else◌};
ghost use Rattle.runs.specs.Desks.{desk, Lent};
ghost use Rattle.runs.specs.Histories.{Performed, AllPerformed, AllPerformedClearing, Clears, request_of, requests};

use crate::buffers::Buffers;
use crate::call::Call;
use crate::run::Run;
use nets::finder::Finder;
use nets::verifier::Verifier;
use ranges::refusal::Refusal;
use ranges::space::Space;

impl Run {
    // Performs a list of calls in order and answers how many were accepted; no list breaks the laws of runs.
    pub fn perform_all<S: Space, F: Finder<S>, V: Verifier<S>>(
        &mut self,
        s: &S,
        calls: &[Call<'_, F, V>],
        buffers: &mut Buffers<'_>,
    ) -> usize
        ensures performed { AllPerformed (S.Space.meaning s.now) (requests F.Finder.promise V.Verifier.promise calls.now) (desk self.old.state buffers.old) (desk self.new.state buffers.new) result }
        ensures clearing { AllPerformedClearing (S.Space.meaning s.now) (requests F.Finder.promise V.Verifier.promise calls.now) (desk self.old.state buffers.old) (desk self.new.state buffers.new) result }
        ensures lent { Lent buffers.old buffers.new }
    {
        self.perform_each(s, calls, buffers)
    }

    // Performs one call, as a step of a history.
    pub fn perform<S: Space, F: Finder<S>, V: Verifier<S>>(
        &mut self,
        s: &S,
        call: &Call<'_, F, V>,
        buffers: &mut Buffers<'_>,
    ) -> Result<(), Refusal>
        ensures step { Performed (S.Space.meaning s.now) (request_of F.Finder.promise V.Verifier.promise call.now) result (desk self.old.state buffers.old) (desk self.new.state buffers.new) }
        ensures clearing { Clears (S.Space.meaning s.now) (request_of F.Finder.promise V.Verifier.promise call.now) result (desk self.old.state buffers.old) (desk self.new.state buffers.new) }
        ensures lent { Lent buffers.old buffers.new }
    {
        self.perform_call(s, call, buffers)
    }

    // The calls one after the other.
    fn perform_each<S: Space, F: Finder<S>, V: Verifier<S>>(
        &mut self,
        s: &S,
        calls: &[Call<'_, F, V>],
        buffers: &mut Buffers<'_>,
    ) -> usize
        ensures performed { AllPerformed (S.Space.meaning s.now) (requests F.Finder.promise V.Verifier.promise calls.now) (desk self.old.state buffers.old) (desk self.new.state buffers.new) result }
        ensures clearing { AllPerformedClearing (S.Space.meaning s.now) (requests F.Finder.promise V.Verifier.promise calls.now) (desk self.old.state buffers.old) (desk self.new.state buffers.new) result }
        ensures lent { Lent buffers.old buffers.new }
    {
        let mut accepted = 0;
        for call in calls {
            let answer = self.perform(s, call, buffers);
            accepted = counted(accepted, &answer);
        }
        accepted
    }

    // The call that is asked for.
    fn perform_call<S: Space, F: Finder<S>, V: Verifier<S>>(
        &mut self,
        s: &S,
        call: &Call<'_, F, V>,
        buffers: &mut Buffers<'_>,
    ) -> Result<(), Refusal>
        ensures step { Performed (S.Space.meaning s.now) (request_of F.Finder.promise V.Verifier.promise call.now) result (desk self.old.state buffers.old) (desk self.new.state buffers.new) }
        ensures clearing { Clears (S.Space.meaning s.now) (request_of F.Finder.promise V.Verifier.promise call.now) result (desk self.old.state buffers.old) (desk self.new.state buffers.new) }
        ensures lent { Lent buffers.old buffers.new }
    {
        match call {
            Call::Begin => self.begin(s),
            Call::Open(k) => {
                let weights = &mut *buffers.weights;
                let ledger = &mut *buffers.ledger;
                self.open(s, *k, weights, ledger)
            }
            Call::Round(f, v) => self.round(s, *f, *v, buffers),
            Call::GiveUp => self.give_up(),
        }
    }
}

// One more where the call was accepted.
fn counted(accepted: usize, answer: &Result<(), Refusal>) -> usize
    requires { accepted < 2 ^ 63 }
    ensures { result ≡ accepted + (if is_ok answer.now then 1 else 0) }
{
    match answer {
        Ok(()) => accepted + 1,
        Err(_) => accepted,
    }
}
