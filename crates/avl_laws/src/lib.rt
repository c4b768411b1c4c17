// Balanced search trees and the map of the method over them; no code.
#![tactic(auto)]
