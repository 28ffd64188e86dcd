// A job as stores: where the image goes, which sectors are cleared, and which store is next.
#![tactic(auto)]

ghost use Rattle.std.specs.Prelude.{◌≡◌, ◌<◌, ◌≤◌};
ghost use Rattle.plan.specs.Placement.{Able, blocks, goal, cleared_image, cleared_count};
ghost use Rattle.plan.specs.Stores.{steps, clearing, plan_of, next, left};
ghost use Rattle.plan.specs.Range.{InRange};

// A job: an image of `size` bytes at sector p, and an old stack from the boundary on. A delete has p 0 and size 0.
#[derive(Clone, Copy)]
pub struct Job {
    pub p: usize,
    pub size: usize,
    pub boundary: usize,
}

impl Job {
    // b: the size in sectors.
    pub fn blocks(self, size: usize) -> usize
        requires { (0 < size) × (size ≤ 65536) × (self.size < 4294967296) }
        ensures { result ≡ blocks size self }
    {
        sectors::sectors_for(self.size as u32, size)
    }
}

// A store: a sector is erased, or written with the first `count` bytes of another; a sector is recorded; or the last store.
#[derive(Clone, Copy)]
pub enum Store {
    Erase {
        target: usize,
    },
    Write {
        target: usize,
        source: usize,
        count: usize,
    },
    Record,
    Last,
}

// A job on a device whose sectors have `size` bytes and whose FUS begins at the sector `top`. Any job whose numbers are in range is one,
// also one that can't be carried out.
#[derive(Clone, Copy)]
pub struct Placed {
    pub job: Job,
    pub size: usize,
    pub top: usize,
    ghost in_range: { InRange size top job },
}

impl Placed {
    // Its job's size in sectors.
    pub fn blocks(self) -> usize
        ensures { result ≡ blocks self.size self.job }
    {
        self.job.blocks(self.size)
    }

    // q: the job's target.
    fn goal(self) -> usize
        ensures { result ≡ goal self.size self.top self.job }
    {
        self.top.saturating_sub(self.blocks())
    }

    fn cleared_image(self) -> usize
        ensures { result ≡ cleared_image self.size self.top self.job }
    {
        let below = self.goal().saturating_sub(self.job.p);
        self.blocks().min(below)
    }

    // c: the number of cleared sectors.
    pub fn cleared_count(self) -> usize
        ensures { result ≡ cleared_count self.size self.top self.job }
    {
        self.cleared_image() + self.goal().saturating_sub(self.job.boundary)
    }

    // The stores still to do, after `recorded` sectors and `made` stores in the next one.
    // Kept: the two side by side, here and in `next`: `left` and `next` of specs/Stores.antt take them so.
    #[tactic(auto, unfolding(crate::specs::Stores::left, crate::specs::Stores::plan_of))]
    pub fn left(self, recorded: usize, made: u8) -> usize
        ensures { result ≡ left (plan_of self.size self.top self.job) recorded made }
    {
        let moved = self.blocks();
        let all = moved + self.cleared_count();
        let stores = moved.saturating_sub(recorded) + 2 * all.saturating_sub(recorded) + 1;
        stores.saturating_sub(made as usize)
    }

    // The sector that a clearing erases.
    #[tactic(auto, using(crate::proofs::Chosen::clearings))]
    fn clearing(self, index: usize) -> usize
        requires { index < cleared_count self.size self.top self.job }
        ensures { result ≡ clearing self.size self.top self.job index }
    {
        let image = self.cleared_image();
        if index < image {
            return self.job.p + index;
        }
        self.job.boundary + (index - image)
    }

    // The sector that a step stores to.
    // Kept: `Able` is a clause of this, of `copying` and of `next`, and not of the type, whose other methods answer for jobs that can't be carried out.
    #[tactic(auto, using(crate::proofs::Chosen::targets))]
    fn target(self, step: usize) -> usize
        requires able { Able self.size self.top self.job }
        requires step_bound { step < steps (plan_of self.size self.top self.job) }
        ensures { result ≡ (plan_of self.size self.top self.job).target step }
    {
        let b = self.blocks();
        if step < b {
            return (self.top - b) + (b - (step + 1));
        }
        self.clearing(step - b)
    }

    // The store that a copy makes after its sector is erased.
    #[tactic(auto, using(crate::proofs::Chosen::write_at), unfolding(crate::specs::Stores::plan_of))]
    fn copying(self, step: usize) -> Store
        requires able { Able self.size self.top self.job }
        requires step_bound { step < blocks self.size self.job }
        ensures { result ≡ Store.Write ((plan_of self.size self.top self.job).target step) ((plan_of self.size self.top self.job).source step) ((plan_of self.size self.top self.job).kept step) }
    {
        let place = self.blocks() - (step + 1);
        let rest = self.job.size.saturating_sub(place * self.size);
        Store::Write {
            target: self.target(step),
            source: self.job.p + place,
            count: self.size.min(rest),
        }
    }

    // The next store, after `recorded` sectors and `made` stores in the next one.
    #[tactic(auto, using(crate::proofs::Chosen::choices), unfolding(crate::specs::Stores::plan_of))]
    pub fn next(self, recorded: usize, made: u8) -> Store
        requires able { Able self.size self.top self.job }
        ensures { result ≡ next (plan_of self.size self.top self.job) recorded made }
    {
        let moved = self.blocks();
        if moved + self.cleared_count() <= recorded {
            return Store::Last;
        }
        match made {
            0 => Store::Erase {
                target: self.target(recorded),
            },
            1 if recorded < moved => self.copying(recorded),
            _ => Store::Record,
        }
    }
}
