// Lives over links and racks in memory, in the laboratory suite: what no clause says, that a life ends, and that packets
// come to where they are to go. Expected tags are another program's.
mod failures;
mod gate;
mod many_packets;
mod network;
mod packets;
mod rows;
mod seats;
mod tallies;
mod unstarted;
