//! Laws on the operations of commands, stated on functions that do nothing.

ghost use Rattle.dh_laid.specs.Laid.{AllAssignmentsForm, AllClearingsForm, AllReducesForm, AllStoresForm, ArmGuardsForm, ArmsEnd, ArmsLeave, AssignmentsForm, ChoicesForm, ClearingsForm, JoinsForm, ReducesForm, StoresForm, TestsForm};
ghost use Rattle.dh_laid.specs.LaidAccesses.{CommandsLay, EachLay, GroupsLay, TermsLay, TestsLay};
ghost use Rattle.dh_laid.specs.LaidCommands.{CommandsForm, GroupsForm};
ghost use Rattle.dh_laid.specs.LaidNumbers.{CommandsNumber, GroupsNumber, ReachingNumber};
ghost use Rattle.dh_laid.specs.LaidProbes.{CommandsProbe, GroupsProbe};
ghost use Rattle.dh_laid.specs.LaidProducts.{CommandsHaveProducts, CommandsMultiply, GroupsHaveProducts, GroupsMultiply, TermsMultiply};
ghost use Rattle.dh_laid.specs.LaidUses.{BlocksLead, BlocksProbe, BlocksUse, TestsLead, TestsProbe, TestsUse};
ghost use Rattle.dh_laid.specs.LaidQuiet.{CommandsAreQuiet, GroupsAreQuiet, QuietSetsNone, TermsAreQuiet};

/// What is put down where a variable is assigned is formed, and it is given a value of the kind of its register.
pub fn assignments_are_formed()
    ensures assigned { AssignmentsForm }
    ensures cleared { ClearingsForm }
    ensures reduced { ReducesForm }
    ensures stored { StoresForm }
{}

/// The guards of an arm are truths of the block; and where it is taken back, variables have values of their kinds.
pub fn arms_are_formed()
    ensures guards { ArmGuardsForm }
    ensures ends { ArmsEnd }
    ensures leaves { ArmsLeave }
{}

/// What is formed at one path is formed at all paths; tests are truths of the block.
pub fn paths_are_formed()
    ensures assigned { AllAssignmentsForm }
    ensures cleared { AllClearingsForm }
    ensures reduced { AllReducesForm }
    ensures stored { AllStoresForm }
    ensures tests { TestsForm }
{}

/// The choices behind an `if` give variables values of the kinds of their registers.
pub fn choices_are_formed()
    ensures choices { ChoicesForm }
    ensures joins { JoinsForm }
{}

/// Whole commands are formed, with the arms of an `if`, which are taken back, and so are the parts of a block.
pub fn whole_commands_are_formed()
    ensures commands { CommandsForm }
    ensures groups { GroupsForm }
{}

/// Behind a straight command there are as many accesses as it makes, and no others were touched.
pub fn whole_commands_are_numbered()
    ensures commands { CommandsNumber }
    ensures groups { GroupsNumber }
    ensures reaching { ReachingNumber }
{}

/// What is put down for expressions and commands checks nothing and sets no register.
pub fn whole_commands_are_quiet()
    ensures terms { TermsAreQuiet }
    ensures none { QuietSetsNone }
    ensures commands { CommandsAreQuiet }
    ensures groups { GroupsAreQuiet }
{}

/// A command multiplies as often as its expressions do, at each path, or less.
pub fn whole_commands_have_products()
    ensures commands { CommandsHaveProducts }
    ensures groups { GroupsHaveProducts }
{}

/// The multiplications that are counted in the tree are those of the program.
pub fn products_are_of_the_program()
    ensures terms { TermsMultiply }
    ensures commands { CommandsMultiply }
    ensures groups { GroupsMultiply }
{}

/// Each access of a straight command is probed once at each path.
pub fn whole_commands_probe()
    ensures commands { CommandsProbe }
    ensures groups { GroupsProbe }
{}

/// What is put down keeps that accesses with operations are laid and that none is counted, whatever the step.
pub fn whole_commands_lay()
    ensures terms { TermsLay }
    ensures commands { CommandsLay }
    ensures groups { GroupsLay }
    ensures tests { TestsLay }
    ensures each { EachLay }
{}

/// Each access of a block is read or written at each path that leads, where it shares no earlier read, and probed at each
/// path; and so is each access of a test.
pub fn whole_blocks_use()
    ensures blocks { BlocksUse }
    ensures blocks_lead { BlocksLead }
    ensures blocks_probed { BlocksProbe }
    ensures tests { TestsUse }
    ensures tests_lead { TestsLead }
    ensures tests_probed { TestsProbe }
{}
