//! The laws of the definitions in specs/: each stands on the contract of a function that does nothing else.

ghost use Rattle.model.specs.RuleLaws.{NearestExact, FreeExact, ReplyExact, PairExact, TogetherCountsOn};
ghost use Rattle.model.specs.CountLaws.{CertificatesExact, TogetherAgrees, BoundedWithoutCycle, CountOrCycle};
ghost use Rattle.model.specs.PositionLaws.{StepsExact, TalliesExact};
ghost use Rattle.model.specs.SearchLaws.{SearchExact, ReachExact, SafePartLargest};
ghost use Rattle.model.specs.ReadingLaws.{ReadingExact, FaultsExact, ReadingDecided, CorrectExact, WordsExact, LineExact, LinesUnique, NumbersStand, RangeExact, MeaningExact, ReachedExact};
ghost use Rattle.model.specs.FileLaws.{FileLaidOut, VerdictsExact};
ghost use Rattle.model.specs.SheetLaws.{NamesExact, LookExact, OpenedNew, CallsExact, RefusalsKeep, RefusedSheet, RulesStand};
ghost use Rattle.model.specs.History.{AfterCalls, RulesFit, CheckExact, SolveLeast, FramesStay, StoredBest, WrittenAccepted, AcceptedIsFile, HistoryLaw};
ghost use Rattle.model.specs.Worked.{WorkedSheetsHold};

// THE RULES

/// Free and reply answer as their sentences say; of a number outside 1 to 8 the nearest inside is taken.
pub fn built_in_rules_stand()
    ensures { NearestExact × FreeExact × ReplyExact }
{}

/// Two rules side by side are parts of one: each state answers as in its own rule, and no state of one part follows one
/// of the other. The pair is cut at 255 states.
pub fn pair_stands()
    ensures { PairExact }
{}

/// The states of several rules count on from rule to rule.
pub fn counting_on_stands()
    ensures { TogetherCountsOn }
{}

// COUNTS

/// A valid certificate with the number c exists exactly if the count over all rules is at most c; and it is decided
/// whether the count is at most c or some path passes c.
pub fn certificates_stand()
    ensures { CertificatesExact }
{}

/// The count over the rules of a sheet is that of the rules side by side.
pub fn together_stands()
    ensures { TogetherAgrees }
{}

/// A controller whose count is at most some number has no reachable cycle through a rejecting state, of any rule; of an
/// endless path's first pairs, however many, at most that many are rejecting.
pub fn bounds_stand()
    ensures { BoundedWithoutCycle }
{}

/// Every controller has one count, or reaches a cycle through a rejecting state and has a count above every number.
pub fn counts_stand()
    ensures { CountOrCycle }
{}

// POSITIONS

/// The start and the step are the only positions of which their sentences hold.
pub fn steps_stand()
    ensures { StepsExact }
{}

/// Along any turns each tally is the count of a path to its state, and no path to it counts more.
pub fn tallies_stand()
    ensures { TalliesExact }
{}

/// The search, for any kind of node, lists each node that a first one leads to once, in the order of meeting; or there
/// are more than places.
pub fn search_stands<T>()
    ensures { SearchExact T }
{}

/// The list found is Reach(c), each position once, in the order of meeting; where there is none, Reach(c) has more
/// positions than the capacity.
pub fn reach_stands()
    ensures { ReachExact }
{}

/// The safe part of Reach(c) is safe, and holds every safe set within Reach(c).
pub fn safe_part_stands()
    ensures { SafePartLargest }
{}

// READING

/// A text reads as a rule exactly if it is the bytes of that rule's lines, in order and in range, with every state
/// reached.
pub fn reading_stands()
    ensures { ReadingExact }
{}

/// A text gives a fault, with line and byte, exactly if the fault's sentence holds of the text.
pub fn faults_stand()
    ensures { FaultsExact }
{}

/// Of every text exactly one of these is the case.
pub fn reading_is_decided()
    ensures { ReadingDecided }
{}

/// The words of a line are words exactly if their sentence says so: the letters of a name, its length, one digit to a
/// number.
pub fn correct_lines_stand()
    ensures { CorrectExact }
{}

/// The reader of each word gives it exactly if the bytes begin with it.
pub fn words_stand()
    ensures { WordsExact }
{}

/// The reader of a line gives it exactly if the bytes begin with it, and else stops at the first byte at which no correct
/// line goes on.
pub fn lines_stand()
    ensures { LineExact }
{}

/// No two lists of correct lines have the same bytes.
pub fn lines_unique()
    ensures { LinesUnique }
{}

/// A number of a line stands at its byte, every digit of a line other than n is one of its numbers, and they ascend.
pub fn numbers_stand()
    ensures { NumbersStand }
{}

/// A rule's lines are in range exactly if its name is one and its numbers lie in their ranges, each said in plain words.
pub fn ranges_stand()
    ensures { RangeExact }
{}

/// A rule means what its lines say: its start, its rejecting states, and p follows q exactly if some line has it so.
pub fn meaning_stands()
    ensures { MeaningExact }
{}

/// The search over rule states meets exactly the states that arrows lead to from the start.
pub fn reached_stand()
    ensures { ReachedExact }
{}

// FILES

/// A file has each number at its offset.
pub fn file_laid_out()
    ensures { FileLaidOut }
{}

/// Check gives a verdict exactly if the verdict says so of the bytes: refusals 18 to 21 say what is wrong, and the place
/// of 22 is the first in the order of looking.
pub fn check_says()
    ensures { VerdictsExact }
{}

// THE SHEET

/// Letter case in names is ignored, and nothing else.
pub fn names_stand()
    ensures { NamesExact }
{}

/// The look refuses what is out of range, and a house rule that does not fit, and nothing else.
pub fn look_stands()
    ensures { LookExact }
{}

/// A newly opened sheet has no added rule, limit 14 and no controller.
pub fn opened_stands()
    ensures { OpenedNew }
{}

/// Each call has exactly the outcome that its sentence gives: what it answers, and what it leaves.
pub fn calls_stand()
    ensures { CallsExact }
{}

/// A refusal alters nothing, except that solve discards the stored controller.
pub fn refusals_stand()
    ensures { RefusalsKeep }
{}

/// A sheet that the look refuses stays as it is, and gives that refusal from every call.
pub fn refused_sheet_stands()
    ensures { RefusedSheet }
{}

/// The added rules are those of the adds accepted, each until a withdraw of its name is accepted.
pub fn added_rules_stand()
    ensures { RulesStand }
{}

/// After any calls, the rules on the sheet are for its situations and commands, with at most 16 states.
pub fn rules_stand()
    ensures { AfterCalls RulesFit }
{}

// HISTORIES

/// After any calls: for every c from 0 to 14 and every controller of at most 1,024 states, check accepts some file of it
/// with the number c exactly if its count is at most c; and then it has no reachable cycle through a rejecting state.
pub fn check_stands()
    ensures { AfterCalls CheckExact }
{}

/// After any calls: the count that solve gives is its controller's own, and no finite controller of any size has a lower
/// one; none means that every finite controller's count is above the limit; crowded comes only at a tried c whose
/// Reach(c) exceeds the capacity.
pub fn solve_stands()
    ensures { AfterCalls SolveLeast }
{}

/// After any calls and a solve that gives a count: along the frames accepted since, no path of any of the rules of that
/// solve counts above it.
pub fn frames_stand()
    ensures { AfterCalls FramesStay }
{}

/// Whenever a controller is stored, its states are the positions stored with it, each takes the lowest command that stays
/// in the largest safe set, states are numbered as they are met by ascending state and situation, and its count is the
/// least.
pub fn stored_stands()
    ensures { AfterCalls StoredBest }
{}

/// What write puts down is a file of the stored controller with its count, check accepts it, and later bytes of the
/// buffer are left.
pub fn written_stands()
    ensures { AfterCalls WrittenAccepted }
{}

/// Whatever bytes check accepts are a file of some controller for the sheet, with the number that it answers, which
/// bounds its count.
pub fn accepted_stands()
    ensures { AfterCalls AcceptedIsFile }
{}

/// The history law, whole: all of the above, for any house rule that the look does not refuse and any list of calls,
/// refused or not, on the newly opened sheet.
pub fn history_law_stands()
    ensures { HistoryLaw }
{}

// WORKED SHEETS

/// The twelve worked sheets answer as expected, in one table, by computation.
pub fn worked_sheets_stand()
    ensures { WorkedSheetsHold }
{}
