//! A script that is accepted and uses every statement, every kernel and every shape of an argument.

pub const SCRIPT: &[u8] = b"\
# every statement\n\
space m 9999\n\
space n 4096\n\
proc p m\n\
proc q n\n\
proc r m\n\
policy mru\n\
policy lru\n\
place rr\n\
place home\n\
\n\
array A 3 3 2 2 iota\n\
array B 3 3 3 3 lcg 5\n\
array C 3 3 1 3 zeros\n\
array D 3 3 2 3 const -2\n\
array X 3 1 2 1 iota\n\
array Y 3 1 3 1 const 4\n\
array Z 1 3 1 2 iota\n\
array S 1 1 1 1 zeros\n\
array L 6 1 4 1 iota\n\
array P 3 1 3 1 const 1\n\
array V 1 8 1 3 iota\n\
same W A\n\
same _x9 X\n\
print W\n\
sum W\n\
moved\n\
move A n\n\
move C m\n\
region\n\
task fill 3 Out(C)\n\
task fill -7 InOut(C[1,:])\n\
task addk 2 InOut(A)\n\
task scale 3 InOut(A[2:3,1])\n\
end\n\
print A\n\
region\n\
task copy Out(C) In(A)\n\
task copy Out(D) B\n\
task copyt Out(B) In(D)\n\
task copyt Out(X) Z\n\
end\n\
moved\n\
print B\n\
region\n\
task add InOut(A) In(B)\n\
task sub InOut(A) B\n\
task mul InOut(A) In(C)\n\
task axpy -1 InOut(A) In(D)\n\
end\n\
sum A\n\
region\n\
task xor InOut(A) In(B)\n\
task min InOut(C) In(B)\n\
task max InOut(D) In(B)\n\
task neg InOut(C)\n\
end\n\
moved\n\
region\n\
task rev InOut(V)\n\
task rot 3 InOut(V)\n\
task rot -9 InOut(V[1,1:2:7])\n\
task sort InOut(V[1,8:-1:2])\n\
task scan InOut(V)\n\
end\n\
print V\n\
region\n\
task sum Out(S) In(A)\n\
task dot Out(S) In(X) In(Y)\n\
task swap InOut(X) InOut(Y)\n\
task iota 5 Out(Z)\n\
end\n\
print S\n\
print Z\n\
region\n\
task gemm InOut(C) In(A) In(B)\n\
task gemv InOut(X) In(A) In(Y)\n\
task stencil5 Out(D) In(C)\n\
end\n\
print C\n\
print D\n\
region\n\
task trmv InOut(X) In(lower(A))\n\
task trmv InOut(X) In(L)\n\
task trsv_unit InOut(X) In(P)\n\
task trsm_unit InOut(B) In(P)\n\
end\n\
print X\n\
region\n\
task mirror In(P) Out(unitupper(A))\n\
task syrk_packed InOut(L) In(A)\n\
end\n\
print L\n\
region\n\
task mirror Deps(A, In(unitlower), Out(unitupper))\n\
task add Deps(A,InOut(lower),In(upper))\n\
task neg InOut(diag(B))\n\
task fill 1 Out(all(C))\n\
task copy Out(C) all(B)\n\
end\n\
print A\n\
move A m\n\
moved\n\
move B n\n\
move B n\n\
drop W\n\
print A\n\
drop A\n\
array A 2 2 1 1 lcg -1\n\
print A\n\
same B2 B\n\
drop B\n\
print B2\n\
region\n\
task fill 9 Out(A[1:0,:])\n\
task fill 9 Out(A[3:-1:4,2])\n\
task fill 8 Out(A[:,2:1])\n\
task scan InOut(A[2:-1:1,:])\n\
end\n\
sum A\n\
# overlap\n\
region\n\
task copy Out(V[1,2:5]) In(V[1,1:4])\n\
task swap InOut(V[1,1:3]) InOut(V[1,2:4])\n\
task add InOut(V[1,1:2:7]) V[1,2:2:8]\n\
task copy Out(V) In(V[1,8:-1:1])\n\
end\n\
print V\n\
moved\n\
region\n\
end\n\
sum Y\n\
region\n\
task gemm InOut(C[1:2,1]) In(D[1:2,:]) B2[:,2]\n\
task gemm InOut(C[3,2:3]) D[3,1:2] C[1:2,2:3]\n\
task gemv InOut(Y[1:2,1]) In(C[1:2,:]) X\n\
task stencil5 Out(C[2,:]) In(D[1,:])\n\
task dot Out(C[2,2]) D[:,1] D[:,3]\n\
task sum Out(S) lower(D)\n\
end\n\
print C\n\
print Y\n\
print S\n\
moved\n\
region\n\
  task fill 1 Out ( A )\n\
\ttask\taddk 2 InOut(A)\t\n\
task scale 0003 InOut( A [ : , : ] ) # all\n\
end # of the region\n\
print A #\n\
sum A\n\
\n\
drop S\n\
same S A\n\
sum S\n\
print S\n\
region\n\
task copy Out(S[1,:]) A[2,:]\n\
task fill 5 Out(upper(A))\n\
task fill 6 InOut(unitlower(A))\n\
task neg InOut(lower(S))\n\
end\n\
print S\n\
drop S\n\
drop A\n\
drop B2\n\
drop C\n\
drop D\n\
moved\n\
array A 4 2 3 1 iota\n\
region\n\
task sort InOut(A)\n\
task rev InOut(A[4:-3:1,:])\n\
task rot 1 InOut(A[:,2:-1:1])\n\
task max InOut(A[1:2,:]) In(A[2:3,:])\n\
task min InOut(A[:,1]) In(A[:,2])\n\
end\n\
print A\n\
sum A\n\
moved\n\
print X\n\
print Y\n\
print Z\n\
sum L\n\
sum P\n\
sum _x9\n\
drop _x9\n\
sum X\n\
print V\n\
drop V\n\
array Q_1 2 2 1 2 const -9223372036854775808\n\
array R 2 2 2 1 const 9223372036854775807\n\
region\n\
task sub InOut(Q_1) In(R)\n\
task mul InOut(R) In(Q_1)\n\
end\n\
print Q_1\n\
sum R\n\
# the end\n\
moved\n\
";
