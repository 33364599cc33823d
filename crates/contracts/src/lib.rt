// What the calls' definitions say, beyond what each call's code is proved to do: every done call leaves a well-formed state, every
// refused call changes nothing, each contract leaves one outcome (`specs/Promises.antt`), the cheats that document 01 names meet no
// contract (`specs/Cheats.antt`), and its samples hold (`specs/Samples.antt`). There is no code here; the proofs stand in `proofs/`.

#![tactic(auto)]
