// The C interface. include/room_effects.h has what a C program sees; these functions take states as lent numbers and ports as a mask of those that
// are set beside plain numbers, which is what passes fastest. A refused call writes no state, but for a refused start, which writes the state of zeros.
// One file for each effect. Calls of two effects are alike and yet not one: each is an exported name of its own over that effect's own numbers.
#![tactic(auto)]

mod chorus_calls;
mod delay_calls;
mod flanger_calls;
mod phaser_calls;
mod places;
mod reverb_calls;
mod shared;
mod tape_delay_calls;
mod tremolo_calls;
mod vibrato_calls;
