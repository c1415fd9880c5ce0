//! What follows from the definitions, as the contracts of functions with nothing to do: a contract is what the check proves.
ghost use Rattle.c_law_form_ignores_places.specs.Laws.{FormForcesNumbers, FormOfFiles, FormOfTrees, PlacesDoNotMatter, RepeatsDoNotMatter};
ghost use Rattle.c_law_form_ignores_places.specs.Worked.{WorkedTrees};

/// A raw tree obeys the rules of form exactly where it does with all its tokens at one place.
pub fn places_do_not_matter()
    ensures { PlacesDoNotMatter }
{}

/// A raw tree obeys the rules of form exactly where it does with the number of each module and descriptor written once.
pub fn repeats_do_not_matter()
    ensures { RepeatsDoNotMatter }
{}

/// A raw tree that obeys the rules writes the numbers that its file asks for: but for places and repeats it is the raw tree of
/// its file, where that can be spelled and each module and descriptor has its number.
pub fn form_forces_numbers()
    ensures { FormForcesNumbers }
{}

/// A file that can be spelled obeys the rules exactly where its own raw tree does.
pub fn form_of_files()
    ensures { FormOfFiles }
{}

/// Each raw tree that writes what a file's own writes, wherever and however often, obeys the rules exactly where the file does.
pub fn form_of_trees()
    ensures { FormOfTrees }
{}

/// Trees without places and repeats, worked out by hand: the definitions compute to them.
pub fn trees_worked_by_hand()
    ensures { WorkedTrees }
{}
