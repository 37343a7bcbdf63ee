// One method for each command, and one that takes any of them.
ghost use Rattle.std.specs.Prelude.{◌≡◌, ◌≤◌, [], ◌∷◌, ◌++◌, length, take, MatchResult};
ghost use Rattle.merkle_theory.specs.Tree.{ConsistencyLeads, PathLeads};
ghost use Rattle.merkle.specs.Digests.{node_of};
ghost use Rattle.merkle_tree.specs.Answer.{GrowthAmong, LeafAmong, consistency_of, path_of};
ghost use Rattle.merkle_tree.specs.Layout.{root_of};
ghost use Rattle.play.specs.declared.answer.Answer.TheVariants.{Entered, GoesOn, Leads, Proof, Top, Way};
ghost use Rattle.play.specs.declared.answer.Refusal.TheVariants.{NoMemory, NotThere};
ghost use Rattle.play.specs.Told.{KeepsTexts};
ghost use Rattle.play.specs.Played.{Checks, Done, Finds, Holds, Refuses, row_of};

use crate::answer::{Answer, Refusal};
use crate::harbour::Harbour;
use merkle::{Digest, consistency_leads, leaf_digest, path_leads};
use merkle_tree::Tree;
use script::Command;
use std::alloc::Global;

impl Harbour {
    pub fn new(heap: Global) -> Self
        ensures { row_of result ≡ [] }
    {
        Harbour {
            entries: Tree::new(heap),
        }
    }

    // The digest becomes the last leaf.
    fn enter(&mut self, leaf: Digest) -> Result<Answer, Refusal>
        ensures { MatchResult result (λ a. (a ≡ Entered (length (row_of self.old))) × (row_of self.new ≡ row_of self.old ++ (leaf ∷ []))) (λ e. (e ≡ NoMemory) × (row_of self.new ≡ row_of self.old)) }
    {
        let place = self.entries.count();
        self.entries.push(leaf)?;
        Ok(Answer::Entered { place })
    }

    fn top_of(&self, count: u64) -> Result<Answer, Refusal>
        ensures { MatchResult result (λ a. (count ≤ length (row_of self.now)) × (a ≡ Top count (root_of (take count (row_of self.now))))) (λ e. (e ≡ NotThere) × (count ≤ length (row_of self.now) → ⊥)) }
    {
        let root = self.entries.root_at(count)?;
        Ok(Answer::Top { count, root })
    }

    // Like `proof` but for the names; one function over both would be longer.
    fn way(&self, place: u64, count: u64) -> Result<Answer, Refusal>
        ensures { Finds (LeafAmong place count (row_of self.now)) (Holds (Way place count) (path_of place (take count (row_of self.now)))) result }
    {
        let path = self.entries.inclusion(place, count)?;
        Ok(Answer::Way { place, count, path })
    }

    fn proof(&self, from: u64, to: u64) -> Result<Answer, Refusal>
        ensures { Finds (GrowthAmong from to (row_of self.now)) (Holds (Proof from to) (consistency_of from (take to (row_of self.now)))) result }
    {
        let proof = self.entries.consistency(from, to)?;
        Ok(Answer::Proof { from, to, proof })
    }

    fn leads(
        &self,
        place: u64,
        count: u64,
        leaf: &Digest,
        path: &[Digest],
    ) -> Result<Answer, Refusal>
        ensures { Checks (LeafAmong place count (row_of self.now)) (PathLeads node_of count place leaf.now path.now (root_of (take count (row_of self.now)))) (Leads place count) result }
    {
        if place >= count {
            return Err(Refusal::NotThere);
        }
        let top = self.entries.root_at(count)?;
        if !path_leads(count, place, leaf, path, &top) {
            return Err(Refusal::Elsewhere);
        }
        Ok(Answer::Leads { place, count })
    }

    fn goes_on(&self, from: u64, to: u64, proof: &[Digest]) -> Result<Answer, Refusal>
        ensures { Checks (GrowthAmong from to (row_of self.now)) (ConsistencyLeads node_of from to (root_of (take from (row_of self.now))) (root_of (take to (row_of self.now))) proof.now) (GoesOn from to) result }
    {
        if from == 0 || from > to {
            return Err(Refusal::NotThere);
        }
        let later = self.entries.root_at(to)?;
        let earlier = self.entries.root_at(from)?;
        if !consistency_leads(from, to, &earlier, &later, proof) {
            return Err(Refusal::Elsewhere);
        }
        Ok(Answer::GoesOn { from, to })
    }

    fn carry_out(&mut self, command: &Command) -> Result<Answer, Refusal>
        ensures { MatchResult result (λ a. Done command.now (row_of self.old) a (row_of self.new)) (λ e. Refuses command.now (row_of self.old) e × (row_of self.new ≡ row_of self.old)) }
    {
        match command {
            Command::Enter(text) => self.enter(leaf_digest(text)),
            Command::Top => Ok(Answer::Top {
                count: self.entries.count(),
                root: self.entries.root(),
            }),
            Command::TopOf(count) => self.top_of(*count),
            Command::Way { place, count } => self.way(*place, *count),
            Command::Proof { from, to } => self.proof(*from, *to),
            Command::Leads {
                place,
                count,
                text,
                path,
            } => self.leads(*place, *count, &leaf_digest(text), path),
            Command::GoesOn { from, to, proof } => self.goes_on(*from, *to, proof),
        }
    }

    // Does what the command says; a refusal changes nothing. What it tells besides is proved from what `carry_out` promises.
    pub fn perform(&mut self, command: &Command) -> Result<Answer, Refusal>
        ensures does { MatchResult result (λ a. Done command.now (row_of self.old) a (row_of self.new)) (λ e. Refuses command.now (row_of self.old) e × (row_of self.new ≡ row_of self.old)) }
        ensures tells { KeepsTexts command.now (row_of self.old) result (row_of self.new) }
    {
        self.carry_out(command)
    }
}
