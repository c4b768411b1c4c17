// Laws of what a C host lends as bytes.
#![tactic(auto)]
