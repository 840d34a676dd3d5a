// What blocks mean that are joined, without copies, under other names.
ghost use Rattle.turned_laws.specs.Turned.{TurnedMeanTheSame};

/// Where each block reads its inputs alone, which are apart, and what catches the exception of a call does not read its result,
/// a program whose blocks are joined along ways, without copies, means the same.
pub fn turned_programs_mean_the_same()
    ensures { TurnedMeanTheSame }
{}
