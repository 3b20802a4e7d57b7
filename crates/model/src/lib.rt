// The model of a book: no code, only definitions (specs/) and the lemmas about them (proofs/). Every layer above promises
// in these terms. Start with specs/Model.antt, what a book holds; then specs/Steps.antt, what each call makes of it;
// specs/Sound.antt, what holds of every book; specs/Lasts.antt, what no call takes away.
#![tactic(auto)]
