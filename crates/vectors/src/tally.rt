// How many vectors were run, and how many of them agree.
ghost use Rattle.std.specs.Prelude.{◌≡◌};

#[derive(Drop)]
pub struct Tally {
    pub all: u32,
    pub agree: u32,
}

impl Tally {
    pub(crate) fn new() -> Self
        ensures { (result.all ≡ 0) × (result.agree ≡ 0) }
    {
        Tally { all: 0, agree: 0 }
    }

    // Counts a vector and says how it came out.
    pub(crate) fn note(
        &mut self,
        rt: &HostRuntime,
        name: &str,
        agrees: bool,
    ) -> anyhow::Result<()> {
        self.all = self.all.saturating_add(1);
        if agrees {
            self.agree = self.agree.saturating_add(1);
            println!(rt; "agrees: {name}")?;
        } else {
            println!(rt; "DIFFERS: {name}")?;
        }
        Ok(())
    }
}
