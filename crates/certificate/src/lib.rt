// What is certified of the entries together: the theorems over their promises are in specs/.
