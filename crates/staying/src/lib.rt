// No code: what a call decides, made in a well-formed image, leaves a well-formed image that shows the machine's next state.
// It names nothing of the controller, so that a loop of calls on one image can be proved below it. In proofs/:
// Stays    decide_fits    what a call decides to store has room in the image, whatever its arguments
//          shows, stays_bytes, stays_formed    the image left shows the next state, is bytes, and is well-formed
// Unused   written_free   a row of stores that fit changes no byte of a slot that it gives no number
// Same     image_same     images that show the same state and agree in slots of no number kept are the same bytes
//          beside_same    the same but for the connections, where only those differ
// Entered  change_room, undo_room    the stores of an entry of an old list, made at once, have room (order 6)
// Sizes, Rooms, Codes, Lent and Both are their lemmas.
#![tactic(auto)]
