// What calls answer.
use margin::choice::World;

// What a family loses, in grains, and the first point of its worst.
#[derive(Clone, Copy, PartialEq, Eq, Debug)]
pub struct FamilyWorst {
    pub loss: u128,
    pub point: usize,
}

// What margin answers: the amount in kopecks, what each family that there is loses, the family that loses most, and the world
// handed out.
#[derive(Clone, Copy, PartialEq, Eq, Debug)]
pub struct Requirement {
    pub amount: u64,
    pub families: [Option<FamilyWorst>; 2],
    pub costliest: usize,
    pub world: World,
}

#[derive(Clone, Copy, PartialEq, Eq, Debug)]
pub enum Answer {
    // the number of the order that was placed
    Numbered(u64),
    // the size still left of the order that was filled
    StillLeft(u64),
    // the size that a cancel ended
    Ended(u64),
    // the new collateral
    Collateral(u64),
    Required(Requirement),
}
