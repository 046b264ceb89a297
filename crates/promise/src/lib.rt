// No code: the three demands on bytes, where a reader can be sent. specs/Demands says them; in proofs/:
// Promise  demand_1, demand_2, demand_3          of the controller's public calls
//          demand_1_c, demand_2_c, demand_3_c    as C sees them: packed answers, and what it reads
// specs/Retry says that a retry is harmless (order 3):
// Retried  retry_harmless   in every byte but other nodes' connections
//          retry_then, retry_at_once    in every byte, where the calls between are made after the uncut job too, or none was
//          met              such a job is met
// specs/Sheets says what a handover sheet has (order 11):
// Sheeted  tallied          one log, as C sees it: its line, and the totals with its counts added
//          reported         logs in turn: together the totals are what those that are not refused keep
#![tactic(auto)]
