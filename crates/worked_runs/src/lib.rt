// Worked runs that are proved of the definitions: specs/Starred.antt states those that document 01
// marks, Waiting those of the waiting bound; Preemption, NearestCycle, PastMidnight, Bus and
// MovedHolidays state those of document 02. There is no code here.
#![tactic(auto)]
